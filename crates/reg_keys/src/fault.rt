//! Why a word names no entry.

use reg_op::OpId;

/// Why a word names no entry.
#[derive(Clone, Copy, Debug, PartialEq, Eq)]
pub enum KeyFault {
    /// The key has no entry, or only retired ones.
    NoEntry,
    /// The entries of the key that are not retired have several texts, and this is the first with another text than the least of
    /// them; or only one was asked for, and this is the second least.
    Several(OpId),
    Memory,
}
