//! Queries on registers, one folder each: searching entries, counting, comparing two registers, and the log of entries.
#![tactic(auto)]

mod diff;
mod figures;
mod find;
pub mod laws;
mod log;

pub use diff::{RowDiff, Sign, SignedRow, changes, changes_text, compare};
pub use figures::{Figures, OfficeFigures, figures_of, offices, offices_text};
pub use find::{Query, Wanted, found, found_ids, found_text};
pub use log::{Asked, first_unlogged, log_text};
