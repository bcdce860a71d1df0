//! Why reading or writing a file fails.

ghost use Rattle.std.specs.Prelude.{◌≡◌};
ghost use Rattle.reg_file.specs.declared.fault.Stop.TheVariants.{Memory};

use reg_op::{DefinitionFault, OpId};
use std::alloc::{AllocError, AllocFailed};
use std::fmt;

/// Why some bytes are not a file.
#[derive(Clone, Copy, Debug, PartialEq, Eq)]
pub enum FileFault {
    Magic,
    Version,
    Kind,
    /// The input ends before a field, or inside one.
    Truncated,
    /// A replica has no range; or a range is empty, begins at 0, touches the previous one, or overlaps the basis.
    Ranges,
    ReplicaOrder,
    OpOrder,
    /// An id, its own or a named one, has the count 0.
    OpIdBad,
    OpKind,
    /// The note has more than 200 bytes.
    NoteTooLong,
    NoteNotUtf8,
    NotSeen,
    SameEntry,
    Definition(DefinitionFault),
    NotCanonical,
    /// An operation is redundant.
    NotKept,
    Trailing,
}

impl FileFault {
    ghost use Rattle.reg_file.specs.Names.{file_name};

    /// The name that is printed.
    pub fn name(self) -> &'static str
        ensures { result.now ≡ file_name self }
    {
        match self {
            FileFault::Magic => "Magic",
            FileFault::Version => "Version",
            FileFault::Kind => "Kind",
            FileFault::Truncated => "Truncated",
            FileFault::Ranges => "Ranges",
            FileFault::ReplicaOrder => "ReplicaOrder",
            FileFault::OpOrder => "OpOrder",
            FileFault::OpIdBad => "OpIdBad",
            FileFault::OpKind => "OpKind",
            FileFault::NoteTooLong => "NoteTooLong",
            FileFault::NoteNotUtf8 => "NoteNotUtf8",
            FileFault::NotSeen => "NotSeen",
            FileFault::SameEntry => "SameEntry",
            FileFault::Definition(_) => "Definition",
            FileFault::NotCanonical => "NotCanonical",
            FileFault::NotKept => "NotKept",
            FileFault::Trailing => "Trailing",
        }
    }
}

impl fmt::Display for FileFault {
    fn fmt<W: fmt::Write>(&self, f: &mut fmt::Formatter<W>) -> fmt::Result {
        match self {
            FileFault::Definition(fault) => {
                // Only the name: the slot of `Missing` and the condition of `Broken` are omitted.
                let name = fault.name();
                write!(f, "Definition {name}")
            }
            fault => f.write_str(fault.name()),
        }
    }
}

/// Why nothing could be read.
#[derive(Clone, Copy, Debug, PartialEq, Eq)]
pub enum ReadFileFault {
    /// The first fault, and its place.
    File { fault: FileFault, place: usize },
    /// There are more than 67,108,864 bytes.
    TooLarge,
    /// The source failed after this many bytes.
    ReadFailed(usize),
    Memory,
}

impl ReadFileFault {
    ghost use Rattle.reg_file.specs.Names.{read_name, read_place};

    /// The name that is printed. If the bytes are the reason, it is that of the first fault.
    pub fn name(self) -> &'static str
        ensures { result.now ≡ read_name self }
    {
        match self {
            ReadFileFault::File { fault, .. } => fault.name(),
            ReadFileFault::TooLarge => "TooLarge",
            ReadFileFault::ReadFailed(_) => "ReadFailed",
            ReadFileFault::Memory => "Memory",
        }
    }

    /// The offset of the fault, from 0, if it has one.
    pub fn place(self) -> Option<usize>
        ensures { result ≡ read_place self }
    {
        match self {
            ReadFileFault::File { place, .. } => Some(place),
            ReadFileFault::TooLarge => None,
            ReadFileFault::ReadFailed(place) => Some(place),
            ReadFileFault::Memory => None,
        }
    }
}

impl fmt::Display for ReadFileFault {
    fn fmt<W: fmt::Write>(&self, f: &mut fmt::Formatter<W>) -> fmt::Result {
        match self {
            ReadFileFault::File { fault, place } => write!(f, "{fault} at {place}"),
            ReadFileFault::TooLarge => f.write_str("TooLarge"),
            ReadFileFault::ReadFailed(place) => write!(f, "ReadFailed at {place}"),
            ReadFileFault::Memory => f.write_str("out of memory"),
        }
    }
}

/// Why a file was not written completely.
#[derive(Clone, Copy, Debug, PartialEq, Eq)]
pub enum WriteFileFault {
    /// The file would have more than 67,108,864 bytes.
    TooLarge,
    /// The sink failed, or took nothing, after this many bytes.
    WriteFailed(usize),
    Memory,
}

impl WriteFileFault {
    ghost use Rattle.reg_file.specs.Names.{write_name, write_place};

    /// The name that is printed.
    pub fn name(self) -> &'static str
        ensures { result.now ≡ write_name self }
    {
        match self {
            WriteFileFault::TooLarge => "TooLarge",
            WriteFileFault::WriteFailed(_) => "WriteFailed",
            WriteFileFault::Memory => "Memory",
        }
    }

    /// The number of bytes that were written before it, if it has a place.
    pub fn place(self) -> Option<usize>
        ensures { result ≡ write_place self }
    {
        match self {
            WriteFileFault::TooLarge => None,
            WriteFileFault::WriteFailed(place) => Some(place),
            WriteFileFault::Memory => None,
        }
    }
}

impl fmt::Display for WriteFileFault {
    fn fmt<W: fmt::Write>(&self, f: &mut fmt::Formatter<W>) -> fmt::Result {
        if let WriteFileFault::Memory = self {
            return f.write_str("out of memory");
        }
        let name = self.name();
        match self.place() {
            Some(place) => write!(f, "{name} at {place}"),
            None => f.write_str(name),
        }
    }
}

/// Why a file of version 1 was not written.
#[derive(Clone, Copy, Debug, PartialEq, Eq)]
pub enum FirstFileFault {
    /// The least id of an operation with a note, which that version cannot store.
    HasNote(OpId),
    Write(WriteFileFault),
}

impl FirstFileFault {
    ghost use Rattle.reg_file.specs.Names.{first_name, first_id, first_place};

    /// The name that is printed.
    pub fn name(self) -> &'static str
        ensures { result.now ≡ first_name self }
    {
        match self {
            FirstFileFault::HasNote(_) => "HasNote",
            FirstFileFault::Write(fault) => fault.name(),
        }
    }

    /// The id that it names, if any.
    pub fn id(self) -> Option<OpId>
        ensures { result ≡ first_id self }
    {
        match self {
            FirstFileFault::HasNote(id) => Some(id),
            FirstFileFault::Write(_) => None,
        }
    }

    /// The number of bytes that were written before it, if it has a place.
    pub fn place(self) -> Option<usize>
        ensures { result ≡ first_place self }
    {
        match self {
            FirstFileFault::HasNote(_) => None,
            FirstFileFault::Write(fault) => fault.place(),
        }
    }
}

impl fmt::Display for FirstFileFault {
    fn fmt<W: fmt::Write>(&self, f: &mut fmt::Formatter<W>) -> fmt::Result {
        match self {
            FirstFileFault::HasNote(id) => write!(f, "HasNote {id}"),
            FirstFileFault::Write(fault) => fault.fmt(f),
        }
    }
}

/// A fault, and the number of bytes from its place on.
#[derive(Clone, Copy, Debug, PartialEq, Eq)]
pub struct Refused {
    pub fault: FileFault,
    pub left: usize,
}

/// Why a field was not read.
#[derive(Clone, Copy, Debug, PartialEq, Eq)]
pub enum Stop {
    Memory,
    Refused(Refused),
}

impl From<AllocError> for Stop {
    ghost from_gives = { λ _ e. e ≡ Memory };

    fn from(_e: AllocError) -> Stop {
        Stop::Memory
    }
}

impl<T: Drop> From<AllocFailed<T>> for Stop {
    ghost from_gives = { λ _ e. e ≡ Memory };

    fn from(_e: AllocFailed<T>) -> Stop {
        Stop::Memory
    }
}
