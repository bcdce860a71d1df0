//! Operations of a register, and the laws of sets of operations.
#![tactic(auto)]

mod count;
pub mod joining;
pub mod laws;
mod note;
mod op_id;
mod operation;
mod status;

pub use note::{Note, NoteFault};
pub use op_id::OpId;
pub use operation::{Op, OpBody, SameEntry};
pub use status::Status;
pub use wkt_crs::{Definition, DefinitionFault};
