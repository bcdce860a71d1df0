//! Splits a file into texts.

mod counting;
mod cutting;
pub mod laws;

pub use cutting::{Cut, begin, next_text, texts};
