//! Searches the entries of a register.

mod query;
mod search;
mod text;

pub use query::{Query, Wanted};
pub use search::{found, found_ids, found_text};
