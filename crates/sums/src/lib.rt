// Sums of lines of a stripe s, set in the cells of another buffer: a half of a bench, or room of a call's own. Long cells: for each cell, for each
// block of its lanes, a sum over the places of a line's cells that is kept in a small array and written once; at most eight columns are taken
// at once. Short cells: whole columns are added one after another, each turned as its lines ask, in two runs.
#![tactic(auto)]

ghost use Rattle.std.specs.Prelude.{◌≡◌, cond, ◌+◌, ◌*◌, ◌-◌, ◌≤◌, ◌<◌, eqb, length, get_or};
ghost use Rattle.parity.specs.Xor.{◌⊕◌};
ghost use Rattle.cells.specs.Runs.{Put};
ghost use Rattle.lines.specs.Lines.{ahead, Sized};
ghost use Rattle.lines.specs.Rows.{Lined};
ghost use Rattle.sums.specs.Sums.{filled, Filling, begun, window_of, cell_of, span_of, Lining, OneLine, Turning, Half, RoomForCells, SomeColumns, AllColumns};

use lines::{Columns, Grid};

// The lanes from j on of the cell of w at `to`, as many as acc has, become those of its seed plus the cells of s at the places `at`. acc is room for
// them.
fn fill_part(acc: &mut [u8], w: &mut [u8], seed: usize, s: &[u8], at: &[usize], to: usize, j: usize)
    requires { Filling w.old s.now (j + length acc.old) at.now seed to }
    ensures { Put w.old w.new (to + j) (length acc.old) (λ l. filled w.old seed s.now at.now (j + l)) }
{
    cells::take(acc, w, seed + j);
    lines::add_cells(acc, s, at, j);
    let from = to + j;
    cells::copy_into(&mut w[from..from + acc.len()], acc);
}

// The lanes from x on of the cell at `to`, of b bytes, become that sum, N at a time, as far as they go. The lane that they go to.
fn fill_by<const N: usize>(
    w: &mut [u8],
    seed: usize,
    s: &[u8],
    b: usize,
    at: &[usize],
    to: usize,
    x: usize,
) -> usize
    requires { (0 < N) × (x ≤ b) × Filling w.old s.now b at.now seed to }
    ensures { (x ≤ result) × (result ≤ b) × (b < result + N) × Put w.old w.new (to + x) (result - x) (λ l. filled w.old seed s.now at.now (x + l)) }
{
    let mut acc = [0u8; N];
    let end = b - (b - x) % N;
    for j in (x..end).step_by(N) {
        fill_part(&mut acc, w, seed, s, at, to, j);
    }
    end
}

// The first lanes, as far as blocks of 128 go. Eight places are handed on as eight, a number that the compiler then knows, and unrolls the sum by: this
// buys a tenth of the time of a sum.
fn fill_eight(w: &mut [u8], seed: usize, s: &[u8], b: usize, at: &[usize], to: usize) -> usize
    requires { Filling w.old s.now b at.now seed to }
    ensures { (result ≤ b) × Put w.old w.new to result (filled w.old seed s.now at.now) }
{
    if at.len() == 8 {
        return fill_by::<128>(w, seed, s, b, &at[0..8], to, 0);
    }
    fill_by::<128>(w, seed, s, b, at, to, 0)
}

// The cell of w at `to`, of b bytes, becomes its seed plus the cells of s at the places `at`. The seed is the cell of w at `seed`, which may be that cell
// itself, or one after it; from the end of w on it is nothing.
pub fn fill_places(w: &mut [u8], seed: usize, s: &[u8], b: usize, at: &[usize], to: usize)
    requires { Filling w.old s.now b at.now seed to }
    ensures { Put w.old w.new to b (filled w.old seed s.now at.now) }
{
    let x = fill_eight(w, seed, s, b, at, to);
    let y = fill_by::<16>(w, seed, s, b, at, to, x);
    let z = fill_by::<4>(w, seed, s, b, at, to, y);
    fill_by::<1>(w, seed, s, b, at, to, z);
}

// What a sum over the columns from `from` on begins with: the seed where they are the first, else what stands in its cell.
pub fn begin_at(from: usize, seed: usize, to: usize) -> usize
    ensures { result ≡ cond (eqb from 0) seed to }
{
    if from == 0 {
        return seed;
    }
    to
}

// The cell of w at `to` gets line i over those columns, at most eight. Where they are the first it begins with its seed, and the line's end is added too;
// otherwise it goes on from what it holds.
pub fn fill_line(
    w: &mut [u8],
    seed: usize,
    s: &[u8],
    g: Grid,
    slant: usize,
    i: usize,
    columns: Columns,
    to: usize,
)
    requires { Lining g s.now (length w.old) slant i columns seed to }
    ensures { Put w.old w.new to g.b (λ l. begun columns w.old seed to l ⊕ window_of g s.now slant i columns l) }
{
    let b = g.b;
    let mut at = [0usize; 9];
    let n = lines::find_line(&mut at, g, slant, i, columns);
    fill_places(w, begin_at(columns.from, seed, to), s, b, &at[0..n], to);
}

// The cell of w at `to` becomes its seed plus line i, with its end, over those columns, which begin with column 0.
pub fn sum_line(
    w: &mut [u8],
    seed: usize,
    s: &[u8],
    g: Grid,
    slant: usize,
    i: usize,
    columns: Columns,
    to: usize,
)
    requires { OneLine g s.now (length w.old) slant i columns seed to }
    ensures { Put w.old w.new to g.b (λ l. get_or w.old (seed + l) 0 ⊕ window_of g s.now slant i columns l) }
{
    let end = columns.to;
    for t in (0..end).step_by(8) {
        let group = lines::part_of(columns, t, end.min(t + 8));
        fill_line(w, seed, s, g, slant, i, group, to);
    }
}

// Of the first n cells of w each cell r gets line r + shift modulo m over those columns, at most eight: cell by cell. Where they are the first, each begins
// with what the cell at `seed` holds.
fn lines_by_cells(
    w: &mut [u8],
    seed: usize,
    n: usize,
    s: &[u8],
    g: Grid,
    slant: usize,
    shift: usize,
    columns: Columns,
)
    requires { RoomForCells g (length w.old) n seed × SomeColumns g s.now slant shift columns }
    ensures { Lined n g.b 0 w.old w.new (λ r l. begun columns w.old seed (r * g.b) l ⊕ window_of g s.now slant (ahead g.m r shift) columns l) }
{
    let m = g.m;
    let b = g.b;
    let mut i = shift;
    for r in 0..n {
        fill_line(w, seed, s, g, slant, i, columns, r * b);
        i = lines::row_below(m, i);
    }
}

// Every cell r of a column gets what line r + shift modulo m has in column t added, unless that is u or v.
fn add_column(
    half: &mut [u8],
    s: &[u8],
    g: Grid,
    slant: usize,
    shift: usize,
    t: usize,
    columns: Columns,
)
    requires { Turning g s.now (length half.old) slant shift t }
    ensures { Lined (g.m - 1) g.b 0 half.old half.new (λ r l. get_or half.old (0 + (r * g.b + l)) 0 ⊕ cell_of g s.now columns slant (ahead g.m r shift) t l) }
{
    if t == columns.u {
        return;
    }
    if t == columns.v {
        return;
    }
    let m = g.m;
    // Line r + shift begins `shift` rows below cell r, and by column t a diagonal has gone down by t: cell r gets the row that is slant * t - shift above.
    lines::add_turned(half, s, g, t, lines::row_above(m, slant * t, shift));
}

// Every cell r of a column gets line r + shift modulo m over those columns added: column by column. For short cells.
pub fn add_columns(half: &mut [u8], s: &[u8], g: Grid, slant: usize, shift: usize, columns: Columns)
    requires { Half g s.now (length half.old) slant shift columns }
    ensures { Lined (g.m - 1) g.b 0 half.old half.new (λ r l. get_or half.old (0 + (r * g.b + l)) 0 ⊕ span_of g s.now slant (ahead g.m r shift) columns l) }
{
    let to = columns.to;
    for t in columns.from..to {
        add_column(half, s, g, slant, shift, t, columns);
    }
}

// Every cell of a column becomes what the last one holds.
pub fn repeat_last(half: &mut [u8], g: Grid)
    requires { (length half.old ≡ g.column) × Sized g.m g.b g.column }
    ensures { Lined (g.m - 1) g.b 0 half.old half.new (λ r l. get_or half.old ((g.m - 2) * g.b + l) 0) }
{
    let b = g.b;
    let last = (g.m - 2) * b;
    cells::zero(&mut half[0..last]);
    lines::spread(half, 0, g);
}

// Every cell r of a column gets line r + shift modulo m over those columns: column by column. Where they are the first, each begins with what the last cell
// holds.
fn lines_by_columns(
    half: &mut [u8],
    s: &[u8],
    g: Grid,
    slant: usize,
    shift: usize,
    columns: Columns,
)
    requires { (length half.old ≡ g.column) × SomeColumns g s.now slant shift columns }
    ensures { Lined (g.m - 1) g.b 0 half.old half.new (λ r l. begun columns half.old ((g.m - 2) * g.b) (r * g.b) l ⊕ window_of g s.now slant (ahead g.m r shift) columns l) }
{
    if columns.from != 0 {
        add_columns(half, s, g, slant, shift, columns);
        return;
    }
    let end = g.k + slant;
    repeat_last(half, g);
    add_columns(half, s, g, 0, shift, lines::part_of(columns, end, end + 1));
    add_columns(half, s, g, slant, shift, columns);
}

// Of the first n cells of w each cell r gets line r + shift modulo m over those columns, at most eight, in the way that suits the cells: short ones are a
// column. Where the columns are the first, each begins with what the cell at `seed` holds.
pub fn sum_lines(
    w: &mut [u8],
    seed: usize,
    n: usize,
    s: &[u8],
    g: Grid,
    slant: usize,
    shift: usize,
    columns: Columns,
)
    requires { RoomForCells g (length w.old) n seed × SomeColumns g s.now slant shift columns }
    ensures { Lined n g.b 0 w.old w.new (λ r l. begun columns w.old seed (r * g.b) l ⊕ window_of g s.now slant (ahead g.m r shift) columns l) }
{
    if 128 <= g.b {
        lines_by_cells(w, seed, n, s, g, slant, shift, columns);
    } else {
        lines_by_columns(w, s, g, slant, shift, columns);
    }
}

// Of the first n cells of w each cell r becomes what the cell at `seed` holds plus line r + shift modulo m, with its end, over those columns, which begin with
// column 0. The loop is that of `sum_line`; one function of both would be told by a closure which sum it calls, and be no plainer.
pub fn sum_cells(
    w: &mut [u8],
    seed: usize,
    n: usize,
    s: &[u8],
    g: Grid,
    slant: usize,
    shift: usize,
    columns: Columns,
)
    requires { RoomForCells g (length w.old) n seed × AllColumns g s.now slant shift columns }
    ensures { Lined n g.b 0 w.old w.new (λ r l. get_or w.old (seed + l) 0 ⊕ window_of g s.now slant (ahead g.m r shift) columns l) }
{
    let end = columns.to;
    for t in (0..end).step_by(8) {
        let group = lines::part_of(columns, t, end.min(t + 8));
        sum_lines(w, seed, n, s, g, slant, shift, group);
    }
}
