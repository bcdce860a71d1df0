//! Options of an import.

use reg_import::Differs;
use uuid::Uuid;

/// Options of an import: the replica, the conflict mode, whether refused texts are passed over and explained, whether lines
/// are printed only of changes, the authority whose entries are listed if no text has their keys, the note, and the names of
/// the files.
#[derive(Clone, Copy)]
pub struct ImportOptions<'a> {
    pub replica: Uuid,
    pub differs: Differs,
    pub keep_going: bool,
    pub explain: bool,
    pub changes: bool,
    pub gone: Option<&'a str>,
    pub note: &'a str,
    pub names: &'a [String],
}
