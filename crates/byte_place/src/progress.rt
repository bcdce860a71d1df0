//! How far a place has come, and why there is no new file.

/// How far a place has come. A number is that of its new file, which it has made and locked.
#[derive(Clone, Copy, Debug, PartialEq, Eq)]
pub(crate) enum At {
    /// There is no new file.
    Start,
    /// The new file was made before the place was asked to make it.
    Reserved(usize),
    /// It has the bytes that the place took.
    Owned(usize),
    Synced(usize),
    /// It may be put in the place of the old one.
    Ready(usize),
    /// It can only be removed.
    Broken(usize),
    /// It has the name of the old one.
    Put,
    /// Its folder was synced, too, unless that may not be opened.
    Landed,
    /// There is nothing more to do.
    Over,
}

/// Why there is no new file.
#[derive(Clone, Copy, Debug, PartialEq, Eq)]
pub enum ReserveFault {
    /// Another process has it.
    Exists,
    /// It cannot be made, or not be opened to the same people as the old one.
    NotOpened,
}
