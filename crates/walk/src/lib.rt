// Two columns that stand mixed with one another in the halves of a buffer are parted again.
#![tactic(auto)]

ghost use Rattle.std.specs.Prelude.{◌≡◌, ℕ, ◌*◌, ◌-◌, ◌≤◌, ◌<◌, length};
ghost use Rattle.parity.specs.Stripe.{lane};
ghost use Rattle.lines.specs.Lines.{Sized};
ghost use Rattle.walk.specs.Walk.{Reaches, Stepped, Walked};

use lines::Grid;

// One step of the walk: adds row `from` of the first half to row `to` of the second, and that to row `to` of the first. Row m - 1 is
// imaginary, and zero.
fn step(w: &mut [u8], g: Grid, from: usize, to: usize)
    requires { (length w.old ≡ 2 * g.column) × Sized g.m g.b g.column × (to < g.m - 1) }
    ensures { (l : ℕ) → l < g.b → Stepped g.m from to (lane g.m g.b w.old l) (lane g.m g.b w.new l) }
{
    let m = g.m;
    let b = g.b;
    let first = to * b;
    let second = g.column + first;
    if from < m - 1 {
        cells::add_through(w, from * b, second, first, b);
    } else {
        cells::add_within(w, first, second, b);
    }
}

// Parts the columns that stand mixed in the halves of w. It is another walk than a diagonal's (`lines::add_diagonal_places`), whose row goes down by one at
// each column and jumps from 0 to m - 1: this one goes between two columns, delta apart. From row m - 1 on its row goes down by delta at each step, and
// where that would be less than 0 it jumps to m more: `row_above` does both.
pub fn walk(w: &mut [u8], g: Grid, delta: usize)
    requires { (length w.old ≡ 2 * g.column) × Sized g.m g.b g.column × (delta ≤ g.m) × Reaches g.m delta }
    ensures { Walked g.m g.b delta w.old w.new }
{
    let m = g.m;
    let mut r = m - 1;
    for n in 0..m - 1 {
        let to = lines::row_above(m, r, delta);
        step(w, g, r, to);
        r = to;
    }
}
