//! The grammar: keywords, the rows of the nodes, the first slot fault of a text that is a tree, and the values of
//! trees.
#![tactic(auto)]

mod argument;
mod choice;
mod fault;
pub mod laws;
pub mod meaning;
mod names;
mod rows;
mod table;
mod tier;
mod walk;
mod words;

pub use choice::{enters, takes};
pub use fault::SlotFault;
pub use rows::row_of;
pub use table::{Argument, Edition, Keyword, Node, Often, Slot, SlotName, Takes};
pub use tier::{check_slots, coming, next_is_comma, next_is_open};
pub use walk::{RowPosition, first_missing, step};
pub use words::{is_cs_kind, is_direction, keyword_of};
