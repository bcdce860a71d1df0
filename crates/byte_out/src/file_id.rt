//! Which file a path leads to.

use std::fs::{self, Metadata, OpenFile};
use std::os::unix::fs::MetadataExt;
use std::rt::Files;

/// The identity of a file, whatever its names: the device and the inode.
#[derive(Clone, Copy, Debug, PartialEq, Eq)]
pub struct FileId {
    device: u64,
    inode: u64,
}

impl FileId {
    /// The file with this metadata.
    fn of(file: &Metadata) -> FileId {
        FileId {
            device: file.dev(),
            inode: file.ino(),
        }
    }

    /// The file that a path leads to, if there is one.
    pub fn at<R: Files>(rt: &R, path: &str) -> Option<FileId> {
        match fs::metadata(rt, path) {
            Ok(file) => Some(FileId::of(&file)),
            Err(_) => None,
        }
    }

    /// Whether this is the open file.
    pub fn is_of<F: OpenFile>(&self, file: &F) -> bool {
        match file.metadata() {
            Ok(open) => *self == FileId::of(&open),
            Err(_) => false,
        }
    }
}
