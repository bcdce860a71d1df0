//! Compares two texts line by line, and writes the differences as a unified diff.
#![tactic(auto)]

mod hunk;
mod lines;
mod near;
pub mod splitting;
mod steps;
mod table;
mod writing;

pub use lines::lines_of;
pub use steps::{Line, Side, compared};
pub use writing::{added, unified};
