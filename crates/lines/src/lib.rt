// Lines of cells in a stripe, and where their cells stand. A row goes straight across the columns (slant 0). A diagonal (slant 1) begins in the row of
// its number; its row goes down by one at each column, and jumps from 0 to m - 1, the imaginary row, which is zero. A line ends in a parity column: a row with
// H's cell in that row, a diagonal with D's cell in the row of its number. Row 0 stands at the top, so a row that goes down by one is the row above. The
// slant is a number and no enum: it is what the row goes down by at each column, and what is added to k where a line ends.
#![tactic(auto)]

ghost use Rattle.std.specs.Prelude.{◌≡◌, ◌⊎◌, ◌+◌, ◌*◌, ◌-◌, ◌≤◌, ◌<◌, length, get_or};
ghost use Rattle.parity.specs.Xor.{◌⊕◌};
ghost use Rattle.parity.specs.Equations.{back};
ghost use Rattle.parity.specs.Stripe.{lane};
ghost use Rattle.cells.specs.Runs.{Added};
ghost use Rattle.lines.specs.Lines.{ahead, real, Sized};
ghost use Rattle.lines.specs.Places.{without, window, total, Within, Listed, Follows, LineListed, RoomForLine};
ghost use Rattle.lines.specs.Rows.{Lined};

// The numbers of a shape, and the bytes of a column. A stripe is handed on as its bytes and this, and not as one struct of both, which was tried: a struct with
// a reference has two moments in a contract, so that `FitsBut g.m g.k g.b u s.now` reads `FitsBut s.entry.grid.m s.entry.grid.k s.entry.grid.b u s.entry.bytes.now`.
#[derive(Debug, PartialEq, Eq, Clone, Copy)]
pub struct Grid {
    pub m: usize,
    pub k: usize,
    pub b: usize,
    pub column: usize,
}

// Some columns of a stripe: those from `from` up to `to`, but u and v. A number that no column of the stripe has leaves none out.
#[derive(Debug, PartialEq, Eq, Clone, Copy)]
pub struct Columns {
    pub from: usize,
    pub to: usize,
    pub u: usize,
    pub v: usize,
}

// All data columns but u and v.
pub fn all_but(g: Grid, u: usize, v: usize) -> Columns
    ensures { result ≡ record { from = 0; to = g.k; u = u; v = v } }
{
    Columns {
        from: 0,
        to: g.k,
        u,
        v,
    }
}

// The columns from `from` up to `to`, but those that `columns` leaves out.
pub fn part_of(columns: Columns, from: usize, to: usize) -> Columns
    ensures { result ≡ record { from = from; to = to; u = columns.u; v = columns.v } }
{
    Columns {
        from,
        to,
        ..columns
    }
}

// The walk of a diagonal, from one column to the next: the row goes down by one, and jumps from 0 to m - 1.
fn down_by_one(m: usize, r: usize) -> usize
    requires { r < m }
    ensures { (r ≡ 0 → result ≡ m - 1) × (0 < r → result ≡ r - 1) }
{
    if r == 0 {
        return m - 1;
    }
    r - 1
}

// Row r after so many steps of `down_by_one`, at once: r - steps, and m more where that is less than 0. In the picture it is so many rows above.
pub fn row_above(m: usize, r: usize, steps: usize) -> usize
    requires { (r < m) × (steps ≤ m) × (m ≤ 127) }
    ensures { result ≡ back m r steps }
{
    if r < steps {
        return r + m - steps;
    }
    r - steps
}

// The row below row r, and row 0 after row m - 1. Lines are counted so too: a line has the number of its row in column 0.
pub fn row_below(m: usize, r: usize) -> usize
    requires { (r < m) × (m ≤ 127) }
    ensures { result ≡ ahead m r 1 }
{
    if r + 1 < m {
        return r + 1;
    }
    0
}

// Puts the place of the cell in row r of column t after the first n places of `at`, unless it is imaginary. How many there are then.
pub fn add_place(at: &mut [usize], n: usize, g: Grid, t: usize, r: usize) -> usize
    requires { (n < length at.old) × (t < 256) × Sized g.m g.b g.column }
    ensures { Listed g.b (t * g.column + g.column) n result 1 at.old at.new (λ s l. real g.m (lane g.m g.b s l) r t) }
{
    let m = g.m;
    if r < m - 1 {
        let c = g.column;
        let b = g.b;
        at[n] = t * c + r * b;
        return n + 1;
    }
    n
}

// Puts that place there, unless t is u or v: what stands in a column that is left out is not looked at. How many there are then.
pub fn add_place_but(
    at: &mut [usize],
    n: usize,
    g: Grid,
    t: usize,
    r: usize,
    u: usize,
    v: usize,
) -> usize
    requires { (n < length at.old) × (t < 256) × Sized g.m g.b g.column }
    ensures { Listed g.b (t * g.column + g.column) n result 1 at.old at.new (λ s l. real g.m (without u v (lane g.m g.b s l)) r t) }
{
    if t == u {
        return n;
    }
    if t == v {
        return n;
    }
    add_place(at, n, g, t, r)
}

// Puts the places of the cells that row i has in those columns after the first n places of `at`. How many there are then.
fn add_row_places(at: &mut [usize], n: usize, g: Grid, i: usize, columns: Columns) -> usize
    requires { RoomForLine g 0 i columns n (length at.old) }
    ensures { LineListed g 0 i columns n result at.old at.new }
{
    let to = columns.to;
    let mut x = n;
    for t in columns.from..to {
        x = add_place_but(at, x, g, t, i, columns.u, columns.v);
    }
    x
}

// Puts the places of the cells that diagonal i has in those columns after the first n places of `at`: the row goes down by one at each column, and jumps
// from 0 to m - 1. How many there are then.
fn add_diagonal_places(at: &mut [usize], n: usize, g: Grid, i: usize, columns: Columns) -> usize
    requires { RoomForLine g 1 i columns n (length at.old) }
    ensures { LineListed g 1 i columns n result at.old at.new }
{
    let m = g.m;
    let from = columns.from;
    let to = columns.to;
    let mut x = n;
    // The start row: diagonal i is in row i of column 0, and takes a step for each of the `from` columns before these.
    let mut r = row_above(m, i, from);
    for t in from..to {
        x = add_place_but(at, x, g, t, r, columns.u, columns.v);
        r = down_by_one(m, r);
    }
    x
}

// Puts the places of the cells that line i has in those columns after the first n places of `at`: a row's, or a diagonal's. How many there are then.
pub fn add_places(
    at: &mut [usize],
    n: usize,
    g: Grid,
    slant: usize,
    i: usize,
    columns: Columns,
) -> usize
    requires { RoomForLine g slant i columns n (length at.old) }
    ensures { LineListed g slant i columns n result at.old at.new }
{
    if slant == 0 {
        return add_row_places(at, n, g, i, columns);
    }
    add_diagonal_places(at, n, g, i, columns)
}

// Puts the places of the cells that line i has in those columns first in `at`, and where the columns are the first of the stripe that of its end too.
// How many there are.
pub fn find_line(at: &mut [usize], g: Grid, slant: usize, i: usize, columns: Columns) -> usize
    requires { (columns.to - columns.from < length at.old) × Follows g slant i columns }
    ensures { Listed g.b ((g.k + 2) * g.column) 0 result (columns.to - columns.from + 1) at.old at.new (λ s l. window g.m g.k (without columns.u columns.v (lane g.m g.b s l)) slant i columns.from columns.to) }
{
    if columns.from != 0 {
        return add_places(at, 0, g, slant, i, columns);
    }
    let n = add_place_but(at, 0, g, g.k + slant, i, columns.u, columns.v);
    add_places(at, n, g, slant, i, columns)
}

// Adds the lanes from j on of the cells of s at those places to acc.
pub fn add_cells(acc: &mut [u8], s: &[u8], at: &[usize], j: usize)
    requires { Within at.now (length at.now) (j + length acc.old) (length s.now) }
    ensures { Added acc.old acc.new (λ l. total at.now (length at.now) s.now (j + l)) }
{
    for &place in at {
        let from = place + j;
        cells::xor_into(acc, &s[from..from + acc.len()]);
    }
}

// The m - 1 cells of w get column t of s, turned by `turn` rows, added: cell r gets the row to which `turn` steps of a diagonal lead from row r. That is
// two runs: the cells from `turn` on get those from row 0 on, and the cells before cell turn - 1 those from row m - turn on. Cell turn - 1 gets the
// imaginary row, that is nothing.
pub fn add_turned(w: &mut [u8], s: &[u8], g: Grid, t: usize, turn: usize)
    requires { (g.column ≤ length w.old) × (t * g.column + g.column ≤ length s.now) × (turn < g.m) × Sized g.m g.b g.column }
    ensures { Lined (g.m - 1) g.b 0 w.old w.new (λ r l. get_or w.old (0 + (r * g.b + l)) 0 ⊕ real g.m (lane g.m g.b s.now l) (back g.m r turn) t) }
{
    let m = g.m;
    let b = g.b;
    let c = g.column;
    let from = t * c;
    cells::add_run(w, turn * b, s, from, (m - 1 - turn) * b);
    if 1 < turn {
        cells::add_run(w, 0, s, from + (m - turn) * b, (turn - 1) * b);
    }
}

// The m - 1 cells of w from `at` on get column t of w itself, which ends before them, added so.
pub fn add_turned_within(w: &mut [u8], at: usize, g: Grid, t: usize, turn: usize)
    requires { (at + g.column ≤ length w.old) × (t * g.column + g.column ≤ at) × (turn < g.m) × Sized g.m g.b g.column }
    ensures { Lined (g.m - 1) g.b at w.old w.new (λ r l. get_or w.old (at + (r * g.b + l)) 0 ⊕ real g.m (lane g.m g.b w.old l) (back g.m r turn) t) }
{
    let (front, back) = w.split_at_mut(at);
    add_turned(back, front, g, t, turn);
}

// Each of the n cells of w from `at` on, of b bytes, gets the cell at `from`, which is none of them, added. By number: the cell may stand
// before them or after them in the same buffer.
pub fn add_to_each(w: &mut [u8], at: usize, n: usize, b: usize, from: usize)
    requires { (at + n * b ≤ length w.old) × (from + b ≤ length w.old) × ((from + b ≤ at) ⊎ (at + n * b ≤ from)) }
    ensures { Lined n b at w.old w.new (λ r l. get_or w.old (at + (r * b + l)) 0 ⊕ get_or w.old (from + l) 0) }
{
    for r in 0..n {
        cells::add_within(w, at + r * b, from, b);
    }
}

// Each of the m - 1 cells of w from `at` on but the last gets the last one added.
pub fn spread(w: &mut [u8], at: usize, g: Grid)
    requires { (at + g.column ≤ length w.old) × Sized g.m g.b g.column }
    ensures { Lined (g.m - 2) g.b at w.old w.new (λ r l. get_or w.old (at + (r * g.b + l)) 0 ⊕ get_or w.old (at + (g.m - 2) * g.b + l) 0) }
{
    let b = g.b;
    let others = g.m - 2;
    add_to_each(w, at, others, b, at + others * b);
}
