//! Imports many texts: the action for each, given the register so far.
#![tactic(auto)]

mod action;
mod entries_of_key;
mod gone;
mod import;
mod importing;
mod index;
mod indexed_key;
mod indexed_text;
pub mod laws;
mod least;
mod lines;
mod listing;
mod making;
mod plan;
mod quoted;
mod reading;
mod standing_entry;
mod summary;

pub use action::{Differs, Problem, TextAction};
pub use import::{ImportRefusal, Importing, TakenText};
pub use listing::{ImportLines, Listing};
pub use reading::{FileText, ReadText, read_at, told_at};
