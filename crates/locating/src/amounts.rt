// The amounts by which the rows and the diagonals of one lane break. Its bytes are read once, column after column, each with its imaginary row, which is
// zero: so a diagonal is a row of columns that are turned, and diagonal m - 1 is S.
ghost use Rattle.std.specs.Prelude.{◌≡◌, ◌+◌, ◌≤◌, ◌<◌, length, get_or};
ghost use Rattle.parity.specs.Equations.{back};
ghost use Rattle.parity.specs.Stripe.{lane};
ghost use Rattle.cells.specs.Runs.{Added, Put};
ghost use Rattle.lines.specs.Lines.{real};
ghost use Rattle.locating.specs.Locating.{OfLane, Summed, BreaksBy};

use lines::Grid;

// x becomes column t of lane l.
fn take_lane(x: &mut [u8], s: &[u8], g: Grid, t: usize, l: usize)
    requires { OfLane g s.now (length x.old) l × (t < g.k + 2) }
    ensures { Put x.old x.new 0 g.m (λ i. real g.m (lane g.m g.b s.now l) i t) }
{
    let b = g.b;
    let last = g.m - 1;
    let from = t * g.column + l;
    for (i, byte) in x[..last].iter_mut().enumerate() {
        *byte = s[from + i * b];
    }
    x[last] = 0;
}

// Adds x, turned by t, to d: byte i gets the byte to which t steps of a diagonal lead from row i. That is two runs.
fn add_turned_lane(d: &mut [u8], x: &[u8], t: usize)
    requires { (length d.old ≡ length x.now) × (t ≤ length x.now) }
    ensures { Added d.old d.new (λ i. get_or x.now (back (length x.now) i t) 0) }
{
    let rest = x.len() - t;
    cells::add_run(d, t, x, 0, rest);
    cells::add_run(d, 0, x, rest, t);
}

// The rows h and the diagonals d of lane l, summed over the columns before data column t, get that column added. x is room for it.
fn add_lane(x: &mut [u8], h: &mut [u8], d: &mut [u8], s: &[u8], g: Grid, t: usize, l: usize)
    requires { OfLane g s.now (length x.old) l × (t < g.k) × Summed g.m (lane g.m g.b s.now l) t h.old d.old }
    ensures { Summed g.m (lane g.m g.b s.now l) (t + 1) h.new d.new }
{
    take_lane(x, s, g, t, l);
    cells::xor_into(h, x);
    add_turned_lane(d, x, t);
}

// h and d, which are zero, become the rows and the diagonals of lane l, summed over the data columns. x is room for one.
fn add_lanes(x: &mut [u8], h: &mut [u8], d: &mut [u8], s: &[u8], g: Grid, l: usize)
    requires { OfLane g s.now (length x.old) l × Summed g.m (lane g.m g.b s.now l) 0 h.old d.old }
    ensures { Summed g.m (lane g.m g.b s.now l) g.k h.new d.new }
{
    for t in 0..g.k {
        add_lane(x, h, d, s, g, t, l);
    }
}

// Adds byte v to each byte of d.
fn add_to_each(d: &mut [u8], v: u8)
    ensures { Added d.old d.new (λ i. v) }
{
    for byte in d.iter_mut() {
        *byte ^= v;
    }
}

// h and d, which are zero, become the amounts by which the rows and the diagonals of lane l break. x is room for a column of it.
pub(crate) fn find_amounts(x: &mut [u8], h: &mut [u8], d: &mut [u8], s: &[u8], g: Grid, l: usize)
    requires { OfLane g s.now (length x.old) l × Summed g.m (lane g.m g.b s.now l) 0 h.old d.old }
    ensures { BreaksBy g.m g.k (lane g.m g.b s.now l) h.new d.new }
{
    let k = g.k;
    let last = g.m - 1;
    add_lanes(x, h, d, s, g, l);
    take_lane(x, s, g, k, l);
    cells::xor_into(h, x);
    take_lane(x, s, g, k + 1, l);
    cells::xor_into(d, x);
    let special = d[last];
    add_to_each(d, special);
}
