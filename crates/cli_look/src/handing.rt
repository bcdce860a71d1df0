//! Commands that print a register, or hand it on to other programs.

mod hand;
mod into;
mod left;
mod print;

pub use hand::{export, graph};
pub use left::{Exported, LeftKey};
pub use print::{ops, page, show, wkt};
