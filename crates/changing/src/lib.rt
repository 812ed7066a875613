// One data cell of a stripe changed, or several one after another, and with each the parity cells that depend on it: H's cell in its row, and D's cell of its
// diagonal, or every cell of D where it lies on the diagonal of S. Each gets added what the cell changes by. Nothing else is read or written, so the cost does
// not grow with k, and with m on the diagonal of S alone.
#![tactic(auto)]

mod many_cells;

ghost use Rattle.std.specs.Prelude.{◌≡◌, ◌+◌, ◌-◌, ◌*◌, ◌≤◌, ◌<◌, length};
ghost use Rattle.parity.specs.Equations.{back};
ghost use Rattle.parity.specs.Change.{CellChanged};
ghost use Rattle.lines.specs.Lines.{Laid};
ghost use Rattle.changing.specs.Steps.{DifferenceAdded};

use lines::Grid;
pub use many_cells::change_cells;

// The diagonal on which row i of column t lies. It has the number of its row in column 0; a step to the next column goes down by one row, so here it goes back
// up by t, and jumps from m - 1 to 0. The diagonal of S is m - 1.
fn diagonal_of(m: usize, t: usize, i: usize) -> usize
    requires { (t < m) × (i < m) × (m ≤ 127) }
    ensures { (result < m) × (back m result t ≡ i) }
{
    if i + t < m {
        return i + t;
    }
    i + t - m
}

// Off the diagonal of S: the cell in row i of column t, whose diagonal is `own`, becomes `cell`. One cell of H changes with it, and one of D.
fn change_off_s(s: &mut [u8], g: Grid, t: usize, i: usize, own: usize, cell: &[u8])
    requires { Laid g s.old × (t < g.k) × (i < g.m - 1) × (own < g.m - 1) × (back g.m own t ≡ i) × (length cell.now ≡ g.b) }
    ensures { CellChanged g.m g.k g.b t i cell.now s.old s.new }
{
    let b = g.b;
    let c = g.column;
    let row = i * b;
    let h = g.k * c;
    cells::exchange(s, t * c + row, h + row, h + c + own * b, cell);
}

// The cell in row i of column t comes to hold the difference of its old bytes and those of `cell`, and H's cell in its row gets that added. Where the cell stands.
fn add_difference(s: &mut [u8], g: Grid, t: usize, i: usize, cell: &[u8]) -> usize
    requires { Laid g s.old × (t < g.k) × (i < g.m - 1) × (length cell.now ≡ g.b) }
    ensures { (result ≡ t * g.column + i * g.b) × DifferenceAdded g t i cell.now s.old s.new }
{
    let b = g.b;
    let c = g.column;
    let row = i * b;
    let at = t * c + row;
    cells::add_run(s, at, cell, 0, b);
    cells::add_within(s, g.k * c + row, at, b);
    at
}

// On the diagonal of S: the cell in row i of column t becomes `cell`. One cell of H changes with it, and every cell of D. For a while the cell holds the
// difference of its old bytes and its new ones, and that is what they get added.
fn change_on_s(s: &mut [u8], g: Grid, t: usize, i: usize, cell: &[u8])
    requires { Laid g s.old × (t < g.k) × (i < g.m - 1) × (back g.m (g.m - 1) t ≡ i) × (length cell.now ≡ g.b) }
    ensures { CellChanged g.m g.k g.b t i cell.now s.old s.new }
{
    let b = g.b;
    let d = g.k * g.column + g.column;
    let at = add_difference(s, g, t, i, cell);
    lines::add_to_each(s, d, g.m - 1, b, at);
    cells::copy_into(&mut s[at..at + b], cell);
}

// The cell in row i of column t, which is a data column, becomes `cell`.
pub fn change_cell(s: &mut [u8], g: Grid, t: usize, i: usize, cell: &[u8])
    requires { Laid g s.old × (t < g.k) × (i < g.m - 1) × (length cell.now ≡ g.b) }
    ensures { CellChanged g.m g.k g.b t i cell.now s.old s.new }
{
    let own = diagonal_of(g.m, t, i);
    if own == g.m - 1 {
        change_on_s(s, g, t, i, cell);
    } else {
        change_off_s(s, g, t, i, own, cell);
    }
}
