//! What a take is asked to do.

use reg_journal::OfficeFile;
use uuid::Uuid;

/// What a take is asked to do.
#[derive(Drop)]
pub struct TakeOptions<'a> {
    /// Whether files that are refused are left out.
    pub keep_going: bool,
    /// The offices whose operations are joined, or none if all of every file is.
    pub offices: Vec<Uuid>,
    /// The office file that tells which numbers its office gave; none if nobody asks.
    pub office: Option<&'a OfficeFile>,
}
