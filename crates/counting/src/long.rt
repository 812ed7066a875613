// Long cells: lines are summed by the places of their cells. With few columns all cells of a line are summed at once, and or-ed together; with
// many that would read more streams than a machine fetches ahead, and a band of lines is summed in groups of columns. Both ways stand, since
// bands write each sum and read it again for each group, which a stripe of few columns need not pay.
ghost use Rattle.std.specs.Prelude.{◌≡◌, ◌+◌, ◌*◌, ◌-◌, ◌≤◌, ◌<◌, length, get_or};
ghost use Rattle.parity.specs.Xor.{◌⊕◌};
ghost use Rattle.cells.specs.Runs.{Tells};
ghost use Rattle.lines.specs.Lines.{Laid};
ghost use Rattle.lines.specs.Places.{total, Within};
ghost use Rattle.lines.specs.Rows.{Lined};
ghost use Rattle.sums.specs.Sums.{begun};
ghost use Rattle.counting.specs.Counting.{test_line, piece_of, Finding, Seed, Band, FoundBy, FoundLines};
ghost use Rattle.counting.specs.Gather.{Gathered};

use crate::testing::{Broken, count_cells, find_piece, grow_line, sum_last};
use lines::{Columns, Grid};

// Ors the eight parts of 16 bytes that acc has into o: all of o is zero then exactly when o was and acc is. By index, since each byte of o gets eight of acc.
fn gather(o: &mut [u8], acc: &[u8])
    requires { (length o.old ≡ 16) × (length acc.now ≡ 128) }
    ensures { Gathered o.old o.new 128 (λ l. get_or acc.now l 0) }
{
    for j in 0..o.len() {
        o[j] = o[j]
            | acc[j]
            | acc[16 + j]
            | acc[32 + j]
            | acc[48 + j]
            | acc[64 + j]
            | acc[80 + j]
            | acc[96 + j]
            | acc[112 + j];
    }
}

// The 128 lanes from j on of the cell seed and of the cells of s at those places, summed, and or-ed into o. acc is room for the lanes.
fn fold_part(o: &mut [u8], acc: &mut [u8], seed: &[u8], s: &[u8], at: &[usize], j: usize)
    requires { (length o.old ≡ 16) × (length acc.old ≡ 128) × Seed seed.now (j + 128) × Within at.now (length at.now) (j + 128) (length s.now) }
    ensures { Gathered o.old o.new 128 (λ l. get_or seed.now (j + l) 0 ⊕ total at.now (length at.now) s.now (j + l)) }
{
    cells::take(acc, seed, j);
    lines::add_cells(acc, s, at, j);
    gather(o, acc);
}

// The b lanes of that sum, 128 at a time, or-ed together: 0 where all of them are. The last 128 may overlap those before.
fn fold_places(seed: &[u8], s: &[u8], b: usize, at: &[usize]) -> u8
    requires { (128 ≤ b) × Seed seed.now b × Within at.now (length at.now) b (length s.now) }
    ensures { Tells result b (λ l. get_or seed.now l 0 ⊕ total at.now (length at.now) s.now l) }
{
    let last = b - 128;
    let mut acc = [0u8; 128];
    let mut o = [0u8; 16];
    for j in (0..last).step_by(128) {
        fold_part(&mut o, &mut acc, seed, s, at, j);
    }
    fold_part(&mut o, &mut acc, seed, s, at, last);
    cells::any(&o)
}

// The cell seed plus line d, or-ed together: 0 where the sum is. at is room for the places of the line's cells.
fn fold_line(at: &mut [usize], seed: &[u8], s: &[u8], g: Grid, u: usize, d: usize) -> u8
    requires { (128 ≤ g.b) × (d < g.m) × (2 + 2 * g.k ≤ length at.old) × Seed seed.now g.b × Laid g s.now }
    ensures { Tells result g.b (λ l. get_or seed.now l 0 ⊕ test_line g s.now u d l) }
{
    let b = g.b;
    let n = find_piece(at, g, d, lines::all_but(g, u, u));
    fold_places(seed, s, b, &at[0..n])
}

// How many of lines 0 to m - 2 differ from the cell seed.
fn count_folded(at: &mut [usize], seed: &[u8], s: &[u8], g: Grid, u: usize, enough: usize) -> Broken
    requires { (128 ≤ g.b) × (2 + 2 * g.k ≤ length at.old) × Seed seed.now g.b × Laid g s.now }
    ensures { FoundBy g s.now u enough (λ l. get_or seed.now l 0) result }
{
    let mut count: usize = 0;
    let mut last: usize = 0;
    for d in 0..g.m - 1 {
        if fold_line(at, seed, s, g, u, d) != 0 {
            count += 1;
            last = d;
            if enough <= count {
                return Broken { count, last };
            }
        }
    }
    Broken { count, last }
}

// How many of lines 0 to m - 2 differ from line m - 1, each summed at once. Of the rows that line is imaginary, and zero.
fn count_at_once(s: &[u8], g: Grid, u: usize, enough: usize) -> Broken
    requires { (128 ≤ g.b) × (g.k ≤ 32) × Laid g s.now }
    ensures { FoundLines g s.now u enough result }
{
    let mut at = [0usize; 66];
    if g.k < u {
        return count_folded(&mut at, &s[0..0], s, g, u, enough);
    }
    let mut last = [0u8; 4096];
    sum_last(&mut at, &mut last, 0, s, g, u);
    count_folded(&mut at, &last, s, g, u, enough)
}

// Of the first n cells of w each cell r gets that piece of line d + r.
fn grow_lines(
    at: &mut [usize],
    w: &mut [u8],
    seed: usize,
    s: &[u8],
    g: Grid,
    d: usize,
    columns: Columns,
    n: usize,
)
    requires { (columns.to ≤ columns.from + 8) × Finding g d columns × Band g s.now (length at.old) (length w.old) seed d n }
    ensures { Lined n g.b 0 w.old w.new (λ r l. begun columns w.old seed (r * g.b) l ⊕ piece_of g s.now (d + r) columns l) }
{
    let b = g.b;
    for r in 0..n {
        grow_line(at, w, seed, s, g, d + r, columns, r * b);
    }
}

// Of the first n cells of w each cell r becomes the cell at `seed` plus line first + r, in groups of data columns: at most eight, and four where a data
// column u is left out, for then a line has two cells in each column. So few streams are read at once.
fn grow_band(
    at: &mut [usize],
    w: &mut [u8],
    seed: usize,
    s: &[u8],
    g: Grid,
    u: usize,
    first: usize,
    n: usize,
)
    requires { (first < g.m) × Band g s.now (length at.old) (length w.old) seed first n }
    ensures { Lined n g.b 0 w.old w.new (λ r l. get_or w.old (seed + l) 0 ⊕ test_line g s.now u (first + r) l) }
{
    let k = g.k;
    let most = if k <= u { 8 } else { 4 };
    for t in (0..k).step_by(most) {
        let group = Columns {
            from: t,
            to: k.min(t + most),
            u,
            v: u,
        };
        grow_lines(at, w, seed, s, g, first, group, n);
    }
}

// How many of lines 0 to m - 2 differ from the cell of w at `seed`, in bands of as many lines as have room before it.
fn count_bands(
    at: &mut [usize],
    w: &mut [u8],
    seed: usize,
    s: &[u8],
    g: Grid,
    u: usize,
    enough: usize,
) -> Broken
    requires { Band g s.now (length at.old) (length w.old) seed 0 1 }
    ensures { FoundBy g s.now u enough (λ l. get_or w.old (seed + l) 0) result }
{
    let b = g.b;
    let rows = g.m - 1;
    let most = seed / b;
    let mut count: usize = 0;
    let mut last: usize = 0;
    for first in (0..rows).step_by(most) {
        let n = most.min(rows - first);
        grow_band(at, w, seed, s, g, u, first, n);
        let found = count_cells(w, b, n, enough);
        if found.count != 0 {
            count += found.count;
            last = first + found.last;
            if enough <= count {
                return Broken { count, last };
            }
        }
    }
    Broken { count, last }
}

// How many of lines 0 to m - 2 differ from line m - 1, in bands. Line m - 1 stands after the band.
fn count_in_bands(s: &[u8], g: Grid, u: usize, enough: usize) -> Broken
    requires { Laid g s.now }
    ensures { FoundLines g s.now u enough result }
{
    let mut at = [0usize; 256];
    let mut w = [0u8; 36864];
    sum_last(&mut at, &mut w, 32768, s, g, u);
    count_bands(&mut at, &mut w, 32768, s, g, u, enough)
}

// With how many data columns, at most, lines are summed at once. Of a stripe too large for a near cache that is slow with many columns; where a data
// column u is left out, a line has two cells in each column.
fn most_at_once(k: usize, u: usize, length: usize) -> usize
    ensures { result ≤ 32 }
{
    if length <= 262144 {
        return 32;
    }
    if k <= u {
        return 10;
    }
    8
}

// How many of lines 0 to m - 2 differ from line m - 1. Each way is called once, so that the compiler can put the room of one where that of the other
// would stand.
pub(crate) fn count_long(s: &[u8], g: Grid, u: usize, enough: usize) -> Broken
    requires { (128 ≤ g.b) × Laid g s.now }
    ensures { FoundLines g s.now u enough result }
{
    let k = g.k;
    if most_at_once(k, u, s.len()) < k {
        return count_in_bands(s, g, u, enough);
    }
    count_at_once(s, g, u, enough)
}
