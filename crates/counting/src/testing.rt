// The lines of the test: where their cells stand, the line that the others are held to, and how many cells differ from zero. Memory is fixed, so places
// stand first in room that is lent, and their number is told, as lines tells it; and what a sum begins with is a place in its buffer, whose end stands for
// nothing, as sums asks for it.
ghost use Rattle.std.specs.Prelude.{◌+◌, ◌*◌, ◌-◌, ◌≤◌, ◌<◌, length, get_or};
ghost use Rattle.parity.specs.Xor.{◌⊕◌};
ghost use Rattle.cells.specs.Runs.{Put};
ghost use Rattle.lines.specs.Lines.{Laid};
ghost use Rattle.lines.specs.Places.{Listed, Follows};
ghost use Rattle.lines.specs.Rows.{Room};
ghost use Rattle.sums.specs.Sums.{begun, window_of};
ghost use Rattle.counting.specs.Counting.{test_line, piece_of, Finding, Found};

use lines::{Columns, Grid};

// What was found of some lines: how many break, and the last that was seen to. Once `enough` of them break, the others are not looked at.
// `last` is read only where count is not 0. An Option of the two, with none where no line breaks, was tried, and was slower: with it a check of 11,10,16 took
// 1.07 of the time.
#[derive(Clone, Copy)]
pub(crate) struct Broken {
    pub(crate) count: usize,
    pub(crate) last: usize,
}

// Puts the places of the cells that row r has in those columns, and where they are the first in H, after the first n places of `at`. How many
// there are then.
fn find_row(at: &mut [usize], n: usize, g: Grid, r: usize, columns: Columns) -> usize
    requires { (n + (columns.to - columns.from) < length at.old) × Follows g 0 r columns }
    ensures { Listed g.b ((g.k + 2) * g.column) n result (columns.to - columns.from + 1) at.old at.new (λ s l. window_of g s 0 r columns l) }
{
    if columns.from != 0 {
        return lines::add_places(at, n, g, 0, r, columns);
    }
    let x = lines::add_place_but(at, n, g, g.k, r, columns.u, columns.v);
    lines::add_places(at, x, g, 0, r, columns)
}

// Puts the places of the cells of a piece of line d first in `at`, of those lines that leave column u of `piece` out: its cells in those columns, and where
// they are the first also those in H and D. How many there are.
pub(crate) fn find_piece(at: &mut [usize], g: Grid, d: usize, piece: Columns) -> usize
    requires { (2 + 2 * (piece.to - piece.from) ≤ length at.old) × Finding g d piece }
    ensures { Listed g.b ((g.k + 2) * g.column) 0 result (2 + 2 * (piece.to - piece.from)) at.old at.new (λ s l. piece_of g s d piece l) }
{
    let u = piece.u;
    // One column is left out, by either name. Where the compiler sees that, a check of short cells takes up to a tenth less time.
    let columns = Columns {
        from: piece.from,
        to: piece.to,
        u: piece.u,
        v: piece.u,
    };
    if g.k < u {
        return lines::find_line(at, g, 0, d, columns);
    }
    let n = lines::find_line(at, g, 1, d, columns);
    if u < g.k {
        let m = g.m;
        // The row that diagonal d has in column u.
        let r = lines::row_above(m, d, u);
        return find_row(at, n, g, r, columns);
    }
    n
}

// The cell of w at `to` gets a piece of line d: where its columns are the first it becomes the cell at `seed` plus the piece, otherwise the piece is
// added. at is room for places.
pub(crate) fn grow_line(
    at: &mut [usize],
    w: &mut [u8],
    seed: usize,
    s: &[u8],
    g: Grid,
    d: usize,
    columns: Columns,
    to: usize,
)
    requires { (2 + 2 * (columns.to - columns.from) ≤ length at.old) × Laid g s.now × Finding g d columns × Room (length w.old) g.b seed to }
    ensures { Put w.old w.new to g.b (λ l. begun columns w.old seed to l ⊕ piece_of g s.now d columns l) }
{
    let b = g.b;
    let n = find_piece(at, g, d, columns);
    let begin = if columns.from == 0 { seed } else { to };
    sums::fill_places(w, begin, s, b, &at[0..n], to);
}

// The cell of w at `to` becomes line m - 1 of those that leave column u out. at is room for the places of its cells.
pub(crate) fn sum_last(at: &mut [usize], w: &mut [u8], to: usize, s: &[u8], g: Grid, u: usize)
    requires { (to + g.b ≤ length w.old) × (2 + 2 * g.k ≤ length at.old) × Laid g s.now }
    ensures { Put w.old w.new to g.b (test_line g s.now u (g.m - 1)) }
{
    let none = w.len();
    grow_line(at, w, none, s, g, g.m - 1, lines::all_but(g, u, u), to);
}

// How many of the first n cells of w, of b lanes each, are not zero. Where all of them are, no cell is looked at by itself. r is
// the line's number, which is told.
pub(crate) fn count_cells(w: &[u8], b: usize, n: usize, enough: usize) -> Broken
    requires { n * b ≤ length w.now }
    ensures { Found enough n b (λ l r. get_or w.now (r * b + l) 0) result }
{
    let mut count: usize = 0;
    let mut last: usize = 0;
    if cells::any(&w[0..n * b]) == 0 {
        return Broken { count, last };
    }
    for r in 0..n {
        let p = r * b;
        if cells::any(&w[p..p + b]) != 0 {
            count += 1;
            last = r;
            if enough <= count {
                return Broken { count, last };
            }
        }
    }
    Broken { count, last }
}
