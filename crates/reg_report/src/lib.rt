//! Reports: rows, keys in conflict, awaited ids and gaps of a register, and their texts.
#![tactic(auto)]

mod conflict;
mod conflict_lines;
mod contender;
mod distinct;
mod entry;
mod entry_lines;
mod found;
mod gap;
mod key;
pub mod laws;
mod lines;
mod marks;
mod named;
mod one_entry;
mod row;
mod sheet;
mod writing;

pub use conflict::{Conflict, conflicts, conflicts_in};
pub use distinct::is_among;
pub use entry::{is_entered, is_retired};
pub use entry_lines::{entries_text, spaced, status_word};
pub use found::find_row;
pub use gap::{Gap, gaps};
pub use key::{KeyText, key_in, key_of};
pub use lines::{ops_text, printed};
pub use named::awaited;
pub use one_entry::{entry_text, report_entry};
pub use row::{Row, is_live, rows};
pub use sheet::write_fields;
pub use writing::{ReportFault, ReportKind, report, report_ops, report_text};
