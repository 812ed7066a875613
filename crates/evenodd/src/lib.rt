// Stripes kept in the EVENODD code: encode, check, restore, locate, rewrite, change, changes and show. Nothing here asks anything of its caller: bad input is
// refused by number, and a refused call changes no byte that was lent. Check and locate, refusals, maps and shapes are handed on from the crates below.
#![tactic(auto)]

mod encodes;
mod many_cells;
mod one_cell;
mod restores;
mod rewrites;
mod shows;

pub use checking::{Checked, Located, check, locate};
pub use encodes::encode;
pub use inputs::{ListRefusal, Shape, judge};
pub use many_cells::changes;
pub use maps::{Gaps, Map};
pub use one_cell::change;
pub use refusals::Refusal;
pub use restores::restore;
pub use rewrites::rewrite;
pub use shows::{Place, place_of, show};
