//! An office file, replaced as a whole, and before the file of a register.
#![tactic(auto)]

mod fault;
mod noting;
mod replacing;

pub use fault::{OfficeFileFault, UnreplacedFault};
pub use noting::{put_changed, put_office};
pub use replacing::replace_after;
