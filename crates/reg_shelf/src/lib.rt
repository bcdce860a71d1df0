//! A register on a disk: a stop leaves the old register or the new one.
#![tactic(auto)]

mod file;
mod formatting;
mod keeping;
pub mod laws;
mod restoring;
mod size;
mod steps;

pub use byte_shelf::{Frame, LEAST, MOST, ShelfFault};
pub use formatting::format;
pub use keeping::keep;
pub use restoring::restore;
pub use size::is_size;
pub use steps::{put, ready};
