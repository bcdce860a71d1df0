//! Characters that a reader does not see, or that act on a terminal or on other characters: which they are, and where bytes have one.
#![tactic(auto)]

mod bytes;
pub mod laws;
mod set;
mod short;

pub use bytes::{HiddenCharacter, hidden_at};
pub use set::{is_hidden, is_hidden_code};
pub use short::{push_ellipsis, push_short, shortened};
