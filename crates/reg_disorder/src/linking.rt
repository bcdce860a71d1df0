//! Links pass on: where an entry is retired and another one stays in its place, its supersessions hold for that one.

mod heir;
pub mod laws;
mod link;
mod passing;
mod retiring;

pub use link::{Link, links};
pub use passing::{Passed, pass_on};
pub use retiring::{Retired, retire_for_heirs};
