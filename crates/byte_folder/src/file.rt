//! Files with their names.

/// A file of a folder: its name, and its bytes. Files are ordered by name, and then by bytes.
#[derive(Drop, PartialEq, Eq, PartialOrd, Ord)]
pub struct NamedFile {
    pub name: Vec<u8>,
    pub bytes: Vec<u8>,
}
