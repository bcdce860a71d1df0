//! Tokens of a text, and the check that they form one tree.
#![tactic(auto)]

mod bytes;
mod cursor;
mod fault;
pub mod laws;
mod lexer;
mod machine;
mod marks;
mod scanner;
mod stack;
mod token;

pub use cursor::{Cursor, Outline, scan};
pub use fault::TextFault;
pub use marks::first_mark;
pub use scanner::MAX_TEXT;
pub use token::{Delimiter, Token, TokenKind};
