//! What answers of the system mean.

use crate::system::{Mode, NewFileFault, There};
use std::fs::Metadata;
use std::io::ErrorKind;
use std::os::unix::fs::MetadataExt;

/// What is there; none if it has no name any more, as the mount of a file that was replaced outside.
pub(crate) fn there_is(there: &Metadata) -> Option<There> {
    if !there.is_file() {
        return Some(There::Other);
    }
    match there.nlink() {
        0 => None,
        1 => Some(There::Sole),
        _ => Some(There::Shared),
    }
}

/// The permissions of a new file.
pub(crate) fn permissions(mode: Mode) -> u32 {
    match mode {
        Mode::Private => 0o600,
        Mode::Usual => 0o666,
    }
}

/// Why no file was made.
pub(crate) fn make_fault(error: ErrorKind) -> NewFileFault {
    match error {
        ErrorKind::AlreadyExists => NewFileFault::Exists,
        _ => NewFileFault::NotMade,
    }
}
