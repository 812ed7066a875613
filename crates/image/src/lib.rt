// Shelf images: what an image says of its shape and of its columns, and reading it into a stripe. Nothing here asks anything of its
// caller: a bad image is refused by number, and a refused call changes no byte that was lent.
#![tactic(auto)]

mod answers;
mod numbers;
mod reading;
mod table;

pub use answers::Contents;
pub use reading::{contents, read};
