//! The title of an entry.

/// The title of an entry: its id, its key, its name, and the word for its status.
#[derive(Clone, Copy)]
pub struct Title<'a> {
    pub entry: &'a [u8],
    pub authority: &'a [u8],
    pub code: &'a [u8],
    pub name: &'a [u8],
    pub status: &'a [u8],
}
