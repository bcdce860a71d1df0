//! Rows of CSV as a table for people.
#![tactic(auto)]

mod answer;
mod cells;
mod columns;
pub mod laws;
mod lines;
mod marks;
pub mod offices;
pub mod records;

pub use answer::{TableFault, told_as_table};
pub use lines::table;
