//! The log of entries: the operations that a register keeps, entry by entry.

mod asked;
mod lines;
mod logged;
mod order;

pub use asked::{Asked, first_unlogged};
pub use lines::log_text;
