//! Many registers and many pieces, joined as a tree.
#![tactic(auto)]

mod agreeing;
mod needs;
pub mod offices;
mod pieces;
mod registers;
pub mod undone;

pub use pieces::join_pieces;
pub use registers::join_registers;
