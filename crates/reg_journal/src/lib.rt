//! Office files: all operations that an office made, and the law of such files.
#![tactic(auto)]

mod adding;
mod fault;
mod forged;
mod head;
mod joining;
mod late;
pub mod laws;
mod numeral;
mod office_file;
mod reading;
mod writing;

pub use fault::{AdmitFault, OpenFault};
pub use head::begins_office;
pub use office_file::OfficeFile;
pub use reading::{read_office, read_office_bytes};
