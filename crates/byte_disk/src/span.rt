//! The calls that a disk in memory records.

use byte_io::Tally;

/// A call that wrote, or failed to write, these bytes at this offset.
#[derive(Drop)]
pub(crate) struct Write {
    pub(crate) at: u64,
    pub(crate) bytes: Vec<u8>,
    pub(crate) done: bool,
}

/// The bytes after the last sync, and the writes since then, the oldest first.
#[derive(Drop)]
pub(crate) struct SinceSync {
    pub(crate) base: Vec<u8>,
    pub(crate) writes: Vec<Write>,
}

/// A span that a sync ended, and its last moment.
#[derive(Drop)]
pub(crate) struct Past {
    pub(crate) span: SinceSync,
    pub(crate) last: Tally,
}
