//! The effect of a stop on unsynced bytes.

/// The effect of a stop on the bytes that were written since the last sync.
#[derive(Clone, Copy, Debug, PartialEq, Eq)]
pub enum Pending {
    /// They are as before the writes.
    Old,
    /// They are all written, also those of a write that failed.
    New,
    /// Each of them becomes this byte.
    Each(u8),
}
