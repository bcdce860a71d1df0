//! Commands of an office that works through its office file.
#![tactic(auto)]

mod admitting;
mod keeping;
mod making;
mod opening;
mod store;
mod trying;

pub use making::run_office;
pub use opening::{busy, lock_office, office_in, unopened};
pub use store::{GuardedFile, GuardedShelf};
pub use trying::{TriedFile, TriedShelf};
