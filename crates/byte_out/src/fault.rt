//! Why a file was not replaced.

ghost use Rattle.std.specs.Prelude.{◌≡◌};

use std::fmt;

/// Why no new file was made.
#[derive(Clone, Copy, Debug, PartialEq, Eq)]
pub enum MakeFault {
    NotOpened,
    /// A file with its name exists.
    Exists,
}

impl MakeFault {
    ghost use Rattle.byte_out.specs.Names.{make_name};

    /// The name that is printed.
    pub fn name(self) -> &'static str
        ensures { result.now ≡ make_name self }
    {
        match self {
            MakeFault::NotOpened => "NotOpened",
            MakeFault::Exists => "Exists",
        }
    }
}

impl fmt::Display for MakeFault {
    fn fmt<W: fmt::Write>(&self, f: &mut fmt::Formatter<W>) -> fmt::Result {
        f.write_str(self.name())
    }
}

/// Another command has the new file.
#[derive(Clone, Copy, Debug, PartialEq, Eq)]
pub struct InUse;

/// Why the file with the name is not known to have the bytes that were read.
#[derive(Clone, Copy, Debug, PartialEq, Eq)]
pub enum CompareFault {
    /// It could not be opened again.
    NotOpened,
    /// Reading it again failed after this many bytes, which were the same.
    ReadFailed(usize),
    /// It has other bytes, or it is gone.
    Changed,
}

/// Why the new file did not get its name.
#[derive(Clone, Copy, Debug, PartialEq, Eq)]
pub enum PutFault {
    /// The system refused.
    NotOpened,
    /// Another program removed or replaced the new file; or, before the file was written in place, that file.
    Changed,
    /// The file is written in place, and failed after this many bytes. If that is all of them, its sync failed.
    WriteFailed(usize),
}

/// Why the old file was not replaced, or why that is not certain.
#[derive(Clone, Copy, Debug, PartialEq, Eq)]
pub enum ReplaceFault {
    /// No new file was made, or the old one could not be opened again, or the new one could not be renamed.
    NotOpened,
    /// A file with the new file's name exists: another command writes.
    NewExists,
    /// Exactly this many bytes were written. If all bytes were written, the sync failed.
    WriteFailed(usize),
    /// Reading the old file again failed after this many bytes.
    ReadFailed(usize),
    /// The file is not the one that was read, or the new file is another one: another program replaced it.
    Changed,
    /// The new file has the name, but the sync of its folder failed: a power cut may leave the old one.
    NotSynced,
}

impl ReplaceFault {
    ghost use Rattle.byte_out.specs.Names.{replace_name, replace_place, put_cause};

    /// The fault of putting the new file in place.
    pub fn of_put(fault: PutFault) -> ReplaceFault
        ensures { result ≡ put_cause fault }
    {
        match fault {
            PutFault::NotOpened => ReplaceFault::NotOpened,
            PutFault::Changed => ReplaceFault::Changed,
            PutFault::WriteFailed(place) => ReplaceFault::WriteFailed(place),
        }
    }

    /// The name that is printed.
    pub fn name(self) -> &'static str
        ensures { result.now ≡ replace_name self }
    {
        match self {
            ReplaceFault::NotOpened => "NotOpened",
            ReplaceFault::NewExists => "NewExists",
            ReplaceFault::WriteFailed(_) => "WriteFailed",
            ReplaceFault::ReadFailed(_) => "ReadFailed",
            ReplaceFault::Changed => "Changed",
            ReplaceFault::NotSynced => "NotSynced",
        }
    }

    /// The number of bytes that were written, or read again, before it, if it has a place.
    pub fn place(self) -> Option<usize>
        ensures { result ≡ replace_place self }
    {
        match self {
            ReplaceFault::NotOpened => None,
            ReplaceFault::NewExists => None,
            ReplaceFault::WriteFailed(place) => Some(place),
            ReplaceFault::ReadFailed(place) => Some(place),
            ReplaceFault::Changed => None,
            ReplaceFault::NotSynced => None,
        }
    }
}

impl fmt::Display for ReplaceFault {
    fn fmt<W: fmt::Write>(&self, f: &mut fmt::Formatter<W>) -> fmt::Result {
        let name = self.name();
        match self.place() {
            Some(place) => write!(f, "{name} at {place}"),
            None => f.write_str(name),
        }
    }
}
