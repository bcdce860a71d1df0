//! Condenses texts: their bytes without the blanks between tokens, and with each number in its canonical spelling.

mod bytes;
pub mod laws;
mod numerals;
mod pieces;
mod walk;

pub use walk::condense;
