//! Rows that take a few bytes each: they are packed as they are appended, and unpacked as they are written.
#![tactic(auto)]

mod rows;
mod step;
mod waiting;
mod window;
mod writing;

pub use rows::PackedRows;
