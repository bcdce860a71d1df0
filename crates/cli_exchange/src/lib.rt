//! Commands that make and exchange registers.
#![tactic(auto)]

mod as_office;
mod asked;
mod brought;
mod catching;
mod exchange;
mod replacing;
mod taking;
mod undone;

pub use brought::{Gained, say_gained};
pub use exchange::{downgrade, merge, new, piece, seen, shelf, shelf_size, unshelf};
pub use taking::{Taken, take};
