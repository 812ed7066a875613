// Walking a shelf image: one present column after another, each as a part of the image and no copy. Nothing here asks anything of its caller: a bad image
// and a place past its columns are refused by number.
#![tactic(auto)]

mod steps;
mod walker;

pub use steps::{Found, Step, part_at, step_at};
pub use walker::Walker;
