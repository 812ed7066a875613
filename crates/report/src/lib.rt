// What is told of a shelf image: it is judged, and the answer written as lines of text.
#![tactic(auto)]

mod telling;
mod writing;

pub use telling::report;
