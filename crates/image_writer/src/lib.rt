// Writing a shelf image: from a shape, a map and a stripe to bytes in a lent buffer. Nothing here asks anything of its caller: what can't be written is
// refused by number, and a refused call changes no byte that was lent.
#![tactic(auto)]

mod pieces;
mod writing;

pub use writing::write;
