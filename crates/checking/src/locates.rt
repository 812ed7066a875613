// Locate.
ghost use Rattle.std.specs.Prelude.{◌≡◌, Ok};
ghost use Rattle.checking.specs.Locates.{Locates, found_of, column_of};

use crate::blank::is_blank;
use inputs::{Shape, judge_stripe};
use lines::Grid;
use locating::Suspect;
use refusals::Refusal;

// What locate finds: the stripe is intact, or blank, or the one column in which a valid stripe differs from it.
#[derive(Clone, Copy, Debug, PartialEq, Eq)]
pub enum Located {
    Intact,
    Blank,
    Column(usize),
}

impl Located {
    // What was found, by number, as the C interface has it: 1 for an intact stripe, 2 for a blank one, 4 for a column.
    pub fn found(self) -> u8
        ensures { result ≡ found_of (Ok self) }
    {
        match self {
            Located::Intact => 1,
            Located::Blank => 2,
            Located::Column(_) => 4,
        }
    }

    // The column that is named, as the C interface has it; 129 for none.
    pub fn column(self) -> usize
        ensures { result ≡ column_of (Ok self) }
    {
        match self {
            Located::Intact => 129,
            Located::Blank => 129,
            Located::Column(u) => u,
        }
    }
}

// Takes a stripe with every column present, and says which one is wrong: none, where the stripe is valid, and then whether it is blank or intact; the one in
// which alone a valid stripe differs from it. Where two columns are wrong it names neither of them (`SixOrAThird`). Nothing is written.
pub fn locate(shape: Shape, stripe: &[u8]) -> Result<Located, Refusal>
    ensures { Locates shape.m shape.k shape.b stripe.now result }
{
    let Shape { m, k, b } = shape;
    let column = judge_stripe(shape, stripe.len())?;
    if is_blank(stripe, k * column) {
        return Ok(Located::Blank);
    }
    match locating::locate(stripe, Grid { m, k, b, column }) {
        Suspect::Nothing => Ok(Located::Intact),
        Suspect::Nobody => Err(Refusal::Unmendable),
        Suspect::Column(u) => Ok(Located::Column(u)),
    }
}
