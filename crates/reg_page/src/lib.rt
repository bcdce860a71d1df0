//! The page of a register: what it shows of entries, conflicts and gaps.
#![tactic(auto)]

mod acts;
mod block;
mod boxes;
mod conflicts;
mod contested;
mod described;
mod engine;
mod entries;
mod figures;
mod gap_writing;
mod gaps;
mod gathered;
mod kind;
pub mod laws;
mod links;
mod missing;
mod names;
mod order;
mod page;
mod same;
mod table;
mod writing;

pub use engine::{Page, run_page};
pub use page::print_page;
