//! How a command ends: what is reported of it on standard error, and its exit status.

mod outcome;
mod reporting;
mod teller;

pub use outcome::{Done, NotDone, Outcome, all_done, compared, difference, ended};
pub use reporting::{report, report_answer};
pub use teller::Teller;
