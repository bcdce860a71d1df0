//! What a register gained that no row shows, and that cannot be undone.

mod came;
mod hidden;
mod revived;
mod risen;
mod said;

pub use hidden::{Hidden, hidden_in};
pub use revived::{Revived, revived_in};
pub use risen::Risen;
