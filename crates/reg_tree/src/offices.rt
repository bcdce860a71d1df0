//! What a register has of some offices.

mod ids;
pub mod laws;
mod piece;
mod theirs;

pub use piece::register_in;
pub use theirs::{from_piece, from_register};
