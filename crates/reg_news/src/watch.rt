//! A store that notes the register which a command loads, and the one which it keeps.

mod telling;
mod watched;

pub use telling::{Told, change_and_tell};
pub use watched::{Notes, Watched};
