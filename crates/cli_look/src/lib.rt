//! Commands that look for something in a text, in a register, or in several registers.
#![tactic(auto)]

mod comparing;
pub mod handing;
mod linting;
mod look;
mod reporting;

pub use comparing::compare;
pub use linting::lint;
pub use look::{check, diff, find, log, offices, say_hidden, status, texts};
pub use reporting::report;
