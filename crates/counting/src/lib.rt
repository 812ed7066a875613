// How many lines of a stripe break: of its rows, of its diagonals, and of those that tell whether the columns other than one fit a valid stripe;
// and one row that does.
// Only local arrays are written, and a column that is left out is not read.
#![tactic(auto)]

mod long;
mod short;
mod testing;

ghost use Rattle.std.specs.Prelude.{◌≡◌, ◌↔◌, true};
ghost use Rattle.parity.specs.Stripe.{broken_rows, broken_diagonals};
ghost use Rattle.parity.specs.Candidate.{FitsBut};
ghost use Rattle.lines.specs.Lines.{Laid};
ghost use Rattle.counting.specs.Counting.{FoundLines, BrokenRow};

use lines::Grid;
use long::count_long;
use short::count_with;
use testing::Broken;

#[derive(Clone, Copy, Debug, PartialEq, Eq)]
pub struct Counts {
    pub rows: usize,
    pub diagonals: usize,
}

// How many of lines 0 to m - 2 differ from line m - 1, of those that leave column u out.
fn count_lines(s: &[u8], g: Grid, u: usize, enough: usize) -> Broken
    requires { Laid g s.now }
    ensures { FoundLines g s.now u enough result }
{
    if 128 <= g.b {
        count_long(s, g, u, enough)
    } else if 32 < g.k || 1024 < g.column {
        count_with::<16384, 256>(s, g, u, enough)
    } else {
        count_with::<1024, 66>(s, g, u, enough)
    }
}

// How many rows break, and how many diagonals.
pub fn count_broken(s: &[u8], g: Grid) -> Counts
    requires { Laid g s.now }
    ensures { (result.rows ≡ broken_rows g.m g.k g.b s.now) × (result.diagonals ≡ broken_diagonals g.m g.k g.b s.now) }
{
    let m = g.m;
    let rows = count_lines(s, g, g.k + 1, m);
    let diagonals = count_lines(s, g, g.k, m);
    Counts {
        rows: rows.count,
        diagonals: diagonals.count,
    }
}

// A row that breaks, if one does: the first.
pub fn find_broken_row(s: &[u8], g: Grid) -> Option<usize>
    requires { Laid g s.now }
    ensures { BrokenRow g.m g.k g.b s.now result }
{
    let rows = count_lines(s, g, g.k + 1, 1);
    if rows.count == 0 {
        return None;
    }
    Some(rows.last)
}

// Whether the columns other than u fit a valid stripe; a number u that is no column's leaves no column out, as it does in `without`, of which all that is
// said of a stripe without some column is made.
pub fn fits_but(s: &[u8], g: Grid, u: usize) -> bool
    requires { Laid g s.now }
    ensures { (result ≡ true) ↔ FitsBut g.m g.k g.b u s.now }
{
    if u < g.k + 2 {
        let others = count_lines(s, g, u, 1);
        return others.count == 0;
    }
    let diagonals = count_lines(s, g, g.k, 1);
    if diagonals.count != 0 {
        return false;
    }
    let rows = count_lines(s, g, g.k + 1, 1);
    rows.count == 0
}
