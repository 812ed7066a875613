// The parity columns of a stripe, which is split in its data columns, H and D. S is summed first, into D's last cell, where it stands until that cell is
// written itself. Long cells: the lines are summed for each cell of H and D, over groups of eight columns, and a group after the first adds to what the
// cells hold. Short cells: S goes to every cell of D, and whole columns are added one after another, to D in two runs.
// A sum begins with a seed, the bytes of the column from a place on; from its end on there are none, and the sum begins with zero.
#![tactic(auto)]

ghost use Rattle.std.specs.Prelude.{◌≡◌, ◌+◌, ◌-◌, ◌*◌, ◌≤◌, ◌<◌, length, get_or};
ghost use Rattle.parity.specs.Xor.{◌⊕◌};
ghost use Rattle.parity.specs.Stripe.{lane};
ghost use Rattle.cells.specs.Runs.{Put};
ghost use Rattle.lines.specs.Lines.{line, Laid};
ghost use Rattle.lines.specs.Rows.{Room};
ghost use Rattle.encoding.specs.Encoded.{Encoded};
ghost use Rattle.encoding.specs.Sums.{Data, Group, spans, Grown, Summed};

use lines::{Columns, Grid};

// The cell of w at `to` becomes the seed plus line i over the data columns s from t0 up to t1, at most eight. Column 129, which no stripe has, is left out;
// as constants here the two numbers save the compiler a test for each cell that is summed. So t0 and t1 are passed down as two numbers: as a struct
// `Columns` they cost encode 1 to 9 %.
fn put_cell(
    w: &mut [u8],
    seed: usize,
    s: &[u8],
    g: Grid,
    slant: usize,
    i: usize,
    t0: usize,
    t1: usize,
    to: usize,
)
    requires { Group g s.now t0 t1 × (slant ≤ 1) × (i < g.m) × Room (length w.old) g.b seed to }
    ensures { Put w.old w.new to g.b (λ l. get_or w.old (seed + l) 0 ⊕ spans g s.now slant t0 t1 i l) }
{
    let columns = Columns {
        from: t0,
        to: t1,
        u: 129,
        v: 129,
    };
    let mut at = [0usize; 8];
    let n = lines::add_places(&mut at, 0, g, slant, i, columns);
    sums::fill_places(w, seed, s, g.b, &at[0..n], to);
}

// D's last cell becomes S, eight columns at a time.
fn put_sum(d: &mut [u8], s: &[u8], g: Grid)
    requires { Data g s.now × (length d.old ≡ g.column) }
    ensures { Put d.old d.new ((g.m - 2) * g.b) g.b (λ l. line g.m (lane g.m g.b s.now l) 1 (g.m - 1) g.k) }
{
    let none = d.len();
    let last = (g.m - 2) * g.b;
    for t in (0..g.k).step_by(8) {
        let seed = sums::begin_at(t, none, last);
        put_cell(d, seed, s, g, 1, g.m - 1, t, g.k.min(t + 8), last);
    }
}

// Every row of H gets the columns from t0 up to t1 of its row added, every row of D those of its diagonal. In the first group H begins with zero and D
// with its last cell. Both are summed in one loop, so that the cells which H's sum has read are near when D's reads them.
fn put_group(h: &mut [u8], d: &mut [u8], s: &[u8], g: Grid, t0: usize, t1: usize)
    requires { Group g s.now t0 t1 × (length h.old ≡ g.column) × (length d.old ≡ g.column) }
    ensures { Grown g s.now t0 t1 h.old h.new d.old d.new }
{
    let none = h.len();
    let last = (g.m - 2) * g.b;
    for i in 0..g.m - 1 {
        let to = i * g.b;
        let seed_h = sums::begin_at(t0, none, to);
        let seed_d = sums::begin_at(t0, last, to);
        put_cell(h, seed_h, s, g, 0, i, t0, t1, to);
        put_cell(d, seed_d, s, g, 1, i, t0, t1, to);
    }
}

// H becomes the sums of the rows, D its last cell plus those of the diagonals, eight columns at a time.
fn put_groups(h: &mut [u8], d: &mut [u8], s: &[u8], g: Grid)
    requires { Data g s.now × (length h.old ≡ g.column) × (length d.old ≡ g.column) }
    ensures { Summed g s.now h.old h.new d.old d.new }
{
    for t in (0..g.k).step_by(8) {
        put_group(h, d, s, g, t, g.k.min(t + 8));
    }
}

// H becomes the sums of the rows, D its last cell plus those of the diagonals, a whole column at a time: for short cells.
fn put_columns(h: &mut [u8], d: &mut [u8], s: &[u8], g: Grid)
    requires { Data g s.now × (length h.old ≡ g.column) × (length d.old ≡ g.column) }
    ensures { Summed g s.now h.old h.new d.old d.new }
{
    cells::zero(h);
    sums::repeat_last(d, g);
    for t in 0..g.k {
        lines::add_turned(h, s, g, t, 0);
        lines::add_turned(d, s, g, t, t);
    }
}

// Writes H and D.
pub fn put_parity(s: &mut [u8], g: Grid)
    requires { Laid g s.old }
    ensures { Encoded g.m g.k g.b s.old s.new }
{
    let (data, parity) = s.split_at_mut(g.k * g.column);
    let (h, d) = parity.split_at_mut(g.column);
    put_sum(d, data, g);
    if g.b < 128 {
        put_columns(h, d, data, g);
    } else {
        put_groups(h, d, data, g);
    }
}
