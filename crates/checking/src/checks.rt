// Check.
ghost use Rattle.std.specs.Prelude.{◌≡◌, Ok};
ghost use Rattle.checking.specs.Checks.{found_of, Checks, CountsSay};

use crate::blank::is_blank;
use counting::Counts;
use inputs::{Shape, judge_stripe};
use lines::Grid;
use refusals::Refusal;

// What check finds: the stripe is intact, or blank, or so many rows and diagonals break.
#[derive(Clone, Copy, Debug, PartialEq, Eq)]
pub enum Checked {
    Intact,
    Blank,
    Broken { rows: usize, diagonals: usize },
}

impl Checked {
    // What was found, by number, as the C interface has it: 1 for an intact stripe, 2 for a blank one, 3 for a broken one.
    pub fn found(self) -> u8
        ensures { result ≡ found_of (Ok self) }
    {
        match self {
            Checked::Intact => 1,
            Checked::Blank => 2,
            Checked::Broken {
                rows: _,
                diagonals: _,
            } => 3,
        }
    }
}

// What the two counts say of a stripe that is not blank.
fn told(counts: Counts) -> Checked
    ensures { CountsSay counts result }
{
    let rows = counts.rows;
    let diagonals = counts.diagonals;
    if rows != 0 {
        return Checked::Broken { rows, diagonals };
    }
    if diagonals != 0 {
        return Checked::Broken { rows, diagonals };
    }
    Checked::Intact
}

// Counts the rows whose H equation breaks and the numbers whose D equation breaks, and tells a blank stripe, which breaks none, from an intact one. Nothing is
// written.
pub fn check(shape: Shape, stripe: &[u8]) -> Result<Checked, Refusal>
    ensures { Checks shape.m shape.k shape.b stripe.now result }
{
    let Shape { m, k, b } = shape;
    let column = judge_stripe(shape, stripe.len())?;
    if is_blank(stripe, k * column) {
        return Ok(Checked::Blank);
    }
    Ok(told(counting::count_broken(stripe, Grid { m, k, b, column })))
}
