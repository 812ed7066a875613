// What a call is given, and which refusal it gets: shape numbers, lengths, the map of what is present, and lists of cells.
#![tactic(auto)]

mod lent;
mod lists;
mod shapes;

pub use lent::{judge_gaps, judge_lent, judge_map, judge_stripe};
pub use lists::{ListRefusal, judge_items, judge_lists};
pub use shapes::{Shape, judge};
