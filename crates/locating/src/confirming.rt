// The wrong column of a stripe, if one alone is: the suspect of one lane, confirmed by every lane.
ghost use Rattle.locating.specs.Locating.{Searched, Blamed, RowBreaks};

use crate::{Suspect, judge_row};
use lines::Grid;

// Which column of a stripe whose row i breaks is the wrong one: the one that can be it, where the others fit a valid stripe.
fn locate_by_row(s: &[u8], g: Grid, i: usize) -> Suspect
    requires { Searched g s.now × RowBreaks g s.now i }
    ensures { Blamed g.m g.k g.b s.now result }
{
    let Some(u) = judge_row(s, g, i) else {
        return Suspect::Nobody;
    };
    if counting::fits_but(s, g, u) {
        return Suspect::Column(u);
    }
    Suspect::Nobody
}

// Which column of the stripe is the wrong one: Nothing where the stripe is valid, Nobody where no column alone is. Where no row breaks, the columns
// other than D fit.
pub fn locate(s: &[u8], g: Grid) -> Suspect
    requires { Searched g s.now }
    ensures { Blamed g.m g.k g.b s.now result }
{
    if let Some(i) = counting::find_broken_row(s, g) {
        return locate_by_row(s, g, i);
    }
    if counting::fits_but(s, g, g.k) {
        return Suspect::Nothing;
    }
    Suspect::Column(g.k + 1)
}
