//! Statuses of entries.

/// Whether an entry is valid, superseded or retired.
#[derive(Clone, Copy, Debug, PartialEq, Eq)]
pub enum Standing {
    Valid,
    Superseded,
    Retired,
}
