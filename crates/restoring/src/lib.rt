// Absent columns of a stripe, one or two, restored to the halves of the bench, a buffer of two columns; or some rows of one, to room for them. An absent
// column is never read: every sum leaves out columns u and v, of which 129, which no stripe has, stands for none, as in `without`; H and D are summed whole
// only where both are there. A row with H's cell is zero, and a diagonal with D's cell is S: what is left of them is what the absent columns have there. Row
// m - 1 is imaginary, and zero. While cells are summed, the last of them holds what each begins with: nothing for rows, S for diagonals.
#![tactic(auto)]

ghost use Rattle.std.specs.Prelude.{◌≡◌, ◌+◌, ◌-◌, ◌*◌, ◌%◌, ◌≤◌, ◌<◌, length, get_or};
ghost use Rattle.parity.specs.Xor.{◌⊕◌};
ghost use Rattle.parity.specs.Sum.{sum};
ghost use Rattle.parity.specs.Stripe.{lane};
ghost use Rattle.cells.specs.Runs.{Put};
ghost use Rattle.lines.specs.Lines.{ahead, real, span, Sized, Laid};
ghost use Rattle.lines.specs.Rows.{Lined};
ghost use Rattle.walk.specs.Walk.{Reaches};
ghost use Rattle.restoring.specs.Restoring.{Bench, Band, RowsRestored, OneRestored, TwoRestored};
ghost use Rattle.restoring.specs.Left.{row_left, diagonal_left, Summing, BothSummed, BothLeft, Totalling, CellsTotalled};

use lines::{Columns, Grid};

// The cell of w at `to` becomes what is left of diagonal d without columns u and v.
fn put_diagonal(w: &mut [u8], s: &[u8], g: Grid, d: usize, u: usize, v: usize, to: usize)
    requires { (d < g.m) × (to + g.b ≤ length w.old) × Laid g s.now }
    ensures { Put w.old w.new to g.b (diagonal_left g u v s.now d) }
{
    let none = w.len();
    sums::sum_line(w, none, s, g, 1, d, lines::all_but(g, u, v), to);
}

// Every cell r of w, of n cells, becomes what is left of diagonal r + shift modulo m without columns u and v, plus what is left of diagonal d.
fn put_diagonals(
    w: &mut [u8],
    n: usize,
    s: &[u8],
    g: Grid,
    d: usize,
    shift: usize,
    u: usize,
    v: usize,
)
    requires { (d < g.m) × (shift < g.m) × Band g s.now (length w.old) n }
    ensures { Lined n g.b 0 w.old w.new (λ r l. diagonal_left g u v s.now d l ⊕ diagonal_left g u v s.now (ahead g.m r shift) l) }
{
    let last = (n - 1) * g.b;
    put_diagonal(w, s, g, d, u, v, last);
    sums::sum_cells(w, last, n, s, g, 1, shift, lines::all_but(g, u, v));
}

// Every cell r of w, of n cells, becomes what is left of row r + first modulo m without columns u and v. Rows begin with nothing, and diagonals with one that
// is summed first: one function for both would take the first step as a choice, and be no plainer.
fn put_rows(w: &mut [u8], n: usize, s: &[u8], g: Grid, first: usize, u: usize, v: usize)
    requires { (first < g.m) × Band g s.now (length w.old) n }
    ensures { Lined n g.b 0 w.old w.new (λ r l. row_left g u v s.now (ahead g.m r first) l) }
{
    let last = (n - 1) * g.b;
    let end = w.len();
    cells::zero(&mut w[last..end]);
    sums::sum_cells(w, last, n, s, g, 0, first, lines::all_but(g, u, v));
}

// Column u is absent, and the others fit a valid stripe: the n cells of w become n rows of column u of it, from row `first` on. They come from the rows, or, of
// D, from the diagonals.
pub fn restore_rows(s: &[u8], w: &mut [u8], g: Grid, u: usize, first: usize, n: usize)
    requires { (u < g.k + 2) × (first + n ≤ g.m - 1) × Band g s.now (length w.old) n }
    ensures { RowsRestored g.m g.k g.b u first n s.now w.old w.new }
{
    if u <= g.k {
        put_rows(w, n, s, g, first, u, 129);
    } else {
        put_diagonals(w, n, s, g, g.m - 1, first, u, 129);
    }
}

// Column u is absent, and the others fit a valid stripe: the first half of the bench becomes column u of it. A bench of that half alone will do.
pub fn restore_one(s: &[u8], bench: &mut [u8], g: Grid, u: usize)
    requires { Laid g s.now × (g.column ≤ length bench.old) × (u < g.k + 2) }
    ensures { OneRestored g.m g.k g.b u s.now bench.old bench.new }
{
    let c = g.column;
    restore_rows(s, &mut bench[0..c], g, u, 0, g.m - 1);
}

// Both halves get lines over those columns, at most eight: cell r of the first row r, and of the second diagonal r + shift modulo m. Where the columns are
// the first, each cell begins with what the last cell of its half holds.
fn sum_two(bench: &mut [u8], s: &[u8], g: Grid, shift: usize, columns: Columns)
    requires { Summing g s.now (length bench.old) shift columns }
    ensures { BothSummed g s.now shift columns bench.old bench.new }
{
    let c = g.column;
    let end = 2 * c;
    let m = g.m;
    let b = g.b;
    let last = (m - 2) * b;
    sums::sum_lines(&mut bench[0..c], last, m - 1, s, g, 0, 0, columns);
    sums::sum_lines(&mut bench[c..end], last, m - 1, s, g, 1, shift, columns);
}

// The first half becomes what is left of the rows without columns u and v, the second what is left of the diagonals, each plus what its last cell holds: row r
// has diagonal r + shift modulo m. A group of columns is added to both halves before the next is read.
fn put_both(bench: &mut [u8], s: &[u8], g: Grid, shift: usize, u: usize, v: usize)
    requires { (shift < g.m) × Bench g s.now (length bench.old) }
    ensures { BothLeft g u v shift s.now bench.old bench.new }
{
    let c = g.column;
    let k = g.k;
    let last = (g.m - 2) * g.b;
    cells::zero(&mut bench[last..c]);
    for t in (0..k).step_by(8) {
        let columns = Columns {
            from: t,
            to: k.min(t + 8),
            u,
            v,
        };
        sum_two(bench, s, g, shift, columns);
    }
}

// The cell of w at `to` becomes its seed plus the cells of s from number x up to number y, at most eight, that stand one after another: they are taken for
// a row, whose columns are cells.
fn add_total(w: &mut [u8], seed: usize, s: &[u8], b: usize, x: usize, y: usize, to: usize)
    requires { Totalling (length w.old) (length s.now) b seed x y to }
    ensures { Put w.old w.new to b (λ l. get_or w.old (seed + l) 0 ⊕ span 2 (lane 2 b s.now l) 0 0 x y) }
{
    let row = Grid {
        m: 2,
        k: 1,
        b,
        column: b,
    };
    let columns = Columns {
        from: x,
        to: y,
        u: 256,
        v: 256,
    };
    let mut at = [0usize; 8];
    let n = lines::add_places(&mut at, 0, row, 0, 0, columns);
    sums::fill_places(w, seed, s, b, &at[0..n], to);
}

// The cell of w at `to` becomes the sum of the n cells of s.
fn total_cells(w: &mut [u8], s: &[u8], b: usize, n: usize, to: usize)
    requires { CellsTotalled (length w.old) (length s.now) b n to }
    ensures { Put w.old w.new to b (λ l. span 2 (lane 2 b s.now l) 0 0 0 n) }
{
    let none = w.len();
    for x in (0..n).step_by(8) {
        let seed = if x == 0 { none } else { to };
        add_total(w, seed, s, b, x, n.min(x + 8), to);
    }
}

// The last cell of a half becomes the sum of all cells of columns H and D, which is S where m is odd.
fn put_total(half: &mut [u8], s: &[u8], g: Grid)
    requires { (length half.old ≡ g.column) × Laid g s.now }
    ensures { Put half.old half.new ((g.m - 2) * g.b) g.b (λ l. sum (g.m - 1) (λ i. span g.m (lane g.m g.b s.now l) 0 i g.k (g.k + 2))) }
{
    let b = g.b;
    let from = g.k * g.column;
    let end = from + 2 * g.column;
    total_cells(half, &s[from..end], b, 2 * (g.m - 1), (g.m - 2) * b);
}

// Data columns u and v: the halves become both, mixed with one another, and the walk parts them.
fn data_and_data(s: &[u8], bench: &mut [u8], g: Grid, u: usize, v: usize)
    requires { Bench g s.now (length bench.old) × (g.m % 2 ≡ 1) × (u < v) × (v < g.k) × Reaches g.m (v - u) }
    ensures { TwoRestored g.m g.k g.b u v s.now bench.old bench.new }
{
    let c = g.column;
    let end = 2 * c;
    put_total(&mut bench[c..end], s, g);
    put_both(bench, s, g, v, u, v);
    walk::walk(bench, g, v - u);
}

// Data column u and H: column u from the diagonals, S from the one on which column u has its imaginary cell; then H from the rows.
fn data_and_h(s: &[u8], bench: &mut [u8], g: Grid, u: usize)
    requires { Bench g s.now (length bench.old) × (u < g.k) }
    ensures { TwoRestored g.m g.k g.b u g.k s.now bench.old bench.new }
{
    let c = g.column;
    let end = 2 * c;
    let m = g.m;
    let k = g.k;
    // Diagonal u is in row 0 of column u, so the one before it, u - 1, is in row m - 1 there.
    put_diagonals(
        &mut bench[0..c],
        m - 1,
        s,
        g,
        lines::row_above(m, u, 1),
        u,
        u,
        k,
    );
    put_rows(&mut bench[c..end], m - 1, s, g, 0, u, k);
    cells::add_within(bench, c, 0, c);
}

// The last cell of the second half gets row m - 1 - u of the first added: where column u stands there, its cell on diagonal m - 1. Row m - 1, which it is
// for u = 0, adds nothing.
fn add_crossing(bench: &mut [u8], g: Grid, u: usize)
    requires { (u < g.m) × (length bench.old ≡ 2 * g.column) × Sized g.m g.b g.column }
    ensures { Put bench.old bench.new (g.column + (g.m - 2) * g.b) g.b (λ l. get_or bench.old (g.column + (g.m - 2) * g.b + l) 0 ⊕ real g.m (lane g.m g.b bench.old l) (g.m - 1 - u) 0) }
{
    let m = g.m;
    let b = g.b;
    if 0 < u {
        cells::add_within(bench, g.column + (m - 2) * b, (m - 1 - u) * b, b);
    }
}

// Data column u and D: column u from the rows, and then D from the diagonals, to which column u, now in the first half, is added.
fn data_and_d(s: &[u8], bench: &mut [u8], g: Grid, u: usize)
    requires { Bench g s.now (length bench.old) × (u < g.k) }
    ensures { TwoRestored g.m g.k g.b u (g.k + 1) s.now bench.old bench.new }
{
    let c = g.column;
    let end = 2 * c;
    let m = g.m;
    let b = g.b;
    let d = g.k + 1;
    let last = (m - 2) * b;
    put_rows(&mut bench[0..c], m - 1, s, g, 0, u, d);
    put_diagonal(&mut bench[c..end], s, g, m - 1, u, d, last);
    add_crossing(bench, g, u);
    sums::sum_cells(
        &mut bench[c..end],
        last,
        m - 1,
        s,
        g,
        1,
        0,
        lines::all_but(g, u, d),
    );
    lines::add_turned_within(bench, c, g, 0, u);
}

// H and D, as the data columns give them.
fn h_and_d(s: &[u8], bench: &mut [u8], g: Grid)
    requires { Bench g s.now (length bench.old) }
    ensures { TwoRestored g.m g.k g.b g.k (g.k + 1) s.now bench.old bench.new }
{
    let c = g.column;
    let end = 2 * c;
    let m = g.m;
    let b = g.b;
    let k = g.k;
    put_diagonal(&mut bench[c..end], s, g, m - 1, k, k + 1, (m - 2) * b);
    put_both(bench, s, g, 0, k, k + 1);
}

// Columns u and v are absent: the halves of the bench become columns u and v of the valid stripe that agrees with s in all others.
pub fn restore_two(s: &[u8], bench: &mut [u8], g: Grid, u: usize, v: usize)
    requires { Bench g s.now (length bench.old) × (g.m % 2 ≡ 1) × (u < v) × (v < g.k + 2) × (v < g.k → Reaches g.m (v - u)) }
    ensures { TwoRestored g.m g.k g.b u v s.now bench.old bench.new }
{
    let k = g.k;
    if v < k {
        data_and_data(s, bench, g, u, v);
    } else if v == k {
        data_and_h(s, bench, g, u);
    } else if u < k {
        data_and_d(s, bench, g, u);
    } else {
        h_and_d(s, bench, g);
    }
}
