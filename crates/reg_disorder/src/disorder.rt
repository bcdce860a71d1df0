//! The ways in which a register is not in order.

/// A way in which a register is not in order.
#[derive(Clone, Copy, Debug, PartialEq, Eq)]
pub enum Disorder {
    /// Entries that are not retired and have the text of another one.
    Duplicates,
    /// Superseded entries from which no chain of supersessions leads to a valid one.
    Dangling,
    /// Entries of keys whose entries are all retired.
    Withdrawn,
}
