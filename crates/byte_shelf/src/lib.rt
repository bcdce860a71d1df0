//! Bytes in two slots of a disk, which survive stops.
#![tactic(auto)]

mod fault;
mod formatting;
mod head;
mod keeping;
pub mod laws;
mod reading;
mod restoring;

pub use fault::ShelfFault;
pub use formatting::format;
pub use head::{LEAST, MOST};
pub use keeping::{Frame, keep, put, ready};
pub use restoring::restore;
