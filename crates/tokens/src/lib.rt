// What texts are read with: their tokens, the names in them, and what is wrong with them and where.
#![tactic(auto)]

mod cursor;
mod lexer;
mod mistakes;
mod naming;
mod words;

pub use cursor::Cursor;
pub use lexer::{Keyword, Lexer, TokenKind, shown};
pub use mistakes::{Fault, Mistake, Place, Sort};
pub use naming::{MOST, Names};
pub use words::Word;
