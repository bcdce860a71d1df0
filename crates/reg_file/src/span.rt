//! Ranges of counts, as a file has them.

/// Consecutive counts of one replica, both ends included.
#[derive(Clone, Copy, Debug, PartialEq, Eq)]
pub struct Span {
    pub low: u32,
    pub high: u32,
}
