// The calls that look at a stripe and write nothing: check and locate. Nothing here asks anything of its caller: bad input is refused by number.
#![tactic(auto)]

mod blank;
mod checks;
mod locates;

pub use checks::{Checked, check};
pub use locates::{Located, locate};
