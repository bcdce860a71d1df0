//! `take` without files: what an office made is brought to its register.

mod catching;
mod store;

pub use catching::{CatchUp, WouldCatchUp};
pub use store::{Catching, caught_up};
