//! Where a path leads, and what is there. This only looks.

use std::alloc::{AllocError, Global};
use std::fs;
use std::io::ErrorKind;
use std::rt::Files;

/// Where a path leads.
pub(crate) enum Led {
    /// To a plain file, through any number of links.
    To(String),
    /// It is no link to a plain file.
    Itself,
    /// It is a link, and the system does not tell where it leads.
    Unknown,
}

/// Where a path leads. Paths below /dev and /proc are the system's own names of open files.
pub(crate) fn leads<R: Files>(alloc: Global, rt: &R, path: &str) -> Result<Led, AllocError> {
    if path.starts_with("/dev/") || path.starts_with("/proc/") {
        return Ok(Led::Itself);
    }
    match fs::symlink_metadata(rt, path) {
        Ok(there) if there.is_symlink() => {}
        _ => return Ok(Led::Itself),
    }
    match fs::metadata(rt, path) {
        Ok(end) if end.is_file() => {}
        Ok(_) => return Ok(Led::Itself),
        Err(error) if error.kind() == ErrorKind::NotFound => return Ok(Led::Itself),
        Err(_) => return Ok(Led::Unknown),
    }
    match rt.canonicalize(alloc, path) {
        Ok(real) => Ok(Led::To(real.into_string())),
        Err(error) if error.kind() == ErrorKind::OutOfMemory => Err(AllocError),
        Err(_) => Ok(Led::Unknown),
    }
}

/// What has the name.
#[derive(Clone, Copy, Debug, PartialEq, Eq)]
pub(crate) enum Kind {
    Plain,
    Nothing,
    /// A folder, a device, a pipe or a link.
    Other,
    Unknown,
}

/// What has the name. Whether a plain file has one, which a mount of its own has not whose file outside was replaced, is what the place
/// of the new file looks at.
pub(crate) fn kind_at<R: Files>(rt: &R, path: &str) -> Kind {
    match fs::symlink_metadata(rt, path) {
        Ok(there) if there.is_file() => Kind::Plain,
        Ok(_) => Kind::Other,
        Err(error) if error.kind() == ErrorKind::NotFound && !path.is_empty() => Kind::Nothing,
        Err(_) => Kind::Unknown,
    }
}
