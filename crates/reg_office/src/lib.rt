//! Offices: commands, and the theorem on every world. Reports are those of `reg_report`.
#![tactic(auto)]

mod command;
mod fault;
pub mod laws;
mod making;
mod note;
mod office;
mod repeat;

pub use fault::OfficeFault;
pub use making::{last_count, register_of};
pub use note::note_of;
pub use office::Office;
pub use reg_report::{
    Conflict, Gap, ReportFault, ReportKind, Row, awaited, conflicts, entry_text, gaps, ops_text,
    report, report_entry, report_ops, report_text, rows,
};
