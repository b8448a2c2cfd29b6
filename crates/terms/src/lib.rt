// Trees written as terms: a leaf is its mark, a node `mark(left part, right part)`. Read into the words of a row, and
// written from them. Neither calls itself: what is open is noted on a stack, so a tree may be as deep as it is long.
#![tactic(auto)]

mod bounded;
mod parts;
mod reader;
mod writer;

pub use reader::read_term;
pub use writer::{Unwritten, write_term};
