//! Registers and their joins: the kept operations and the seen ids.
#![tactic(auto)]

pub mod laws;
mod mark;
mod mark_set;
mod marks;
mod merge;
mod outside;
mod piece;
mod register;
mod run;
mod runs;
mod seen;
mod seen_outside;
mod table;
mod view;

pub use mark::{Mark, MarkTarget};
pub use mark_set::Marks;
pub use piece::{Piece, PieceFault};
pub use reg_op::joining::{Join, JoinFault, join_all};
pub use register::{ContentFault, Register, TakeFault};
pub use run::Run;
pub use seen::Seen;
pub use view::{BodyView, OpView, Ops};
