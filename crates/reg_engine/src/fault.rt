//! The faults of engines: their names, printed lines and exit statuses.

ghost use Rattle.std.specs.Prelude.{◌≡◌};
ghost use Rattle.reg_engine.specs.Fault.{status_of, is_after};

use byte_office::OfficeFileFault;
use reg_file::FileFault;
use reg_office::OfficeFault;
use reg_op::OpId;
use std::fmt::{self, Display};
use thiserror::Error;
use wkt_crs::{Condition, SlotFault, TextFault, Unspelled};

/// Why a command's input is refused. It prints as the fault's name, what it names, and its place.
#[derive(Clone, Copy, Debug, PartialEq, Eq)]
pub enum Refusal {
    Text(TextFault),
    Slot(SlotFault),
    /// A CRS breaks a condition. The place is that of its keyword.
    Broken { condition: Condition, place: usize },
    /// The CRS to enter has no identifier of its own.
    NoIdentifier,
    /// The canonical text of the CRS to enter has more than 65,536 bytes.
    CanonicalTooLong,
    /// The id has two bodies in the registers to join.
    Clash(OpId),
    /// The basis of a piece to join has this id, which was not seen.
    Basis(OpId),
    /// The operation with this id has a note, which a file of version 1 cannot store.
    HasNote(OpId),
    /// An office refuses the command. `Memory` is not among these: it is `CliFault::Memory`.
    Office(OfficeFault),
    /// An argument for an entry is not an id.
    BadId,
    /// An argument for a replica is not a UUID.
    BadReplica,
    /// The size of a new shelf is out of range, or not a number.
    BadSize,
    /// No entry matches a search or a key.
    NoEntry,
    /// Several entries match a key. This is the second least of them.
    Several(OpId),
    /// A register has keys in conflict, awaited ids or gaps.
    Unsettled,
    /// This entry has the key, with another text.
    KeyTaken(OpId),
    /// A number of the office stood in a register, and this one knows none. This is the last number that the office gave.
    Behind(OpId),
    /// Somebody else gave this number in the office's name.
    Forged(OpId),
}

impl Refusal {
    ghost use Rattle.reg_engine.specs.Names.{refusal_name, refusal_place, refusal_id};

    /// The name that is printed.
    pub fn name(self) -> &'static str
        ensures { result.now ≡ refusal_name self }
    {
        match self {
            Refusal::Text(fault) => Unspelled::Text(fault).name(),
            Refusal::Slot(fault) => Unspelled::Slot(fault).name(),
            Refusal::Broken { .. } => "Broken",
            Refusal::NoIdentifier => "NoIdentifier",
            Refusal::CanonicalTooLong => "CanonicalTooLong",
            Refusal::Clash(_) => "Clash",
            Refusal::Basis(_) => "Basis",
            Refusal::HasNote(_) => "HasNote",
            Refusal::Office(fault) => fault.name(),
            Refusal::BadId => "BadId",
            Refusal::BadReplica => "BadReplica",
            Refusal::BadSize => "BadSize",
            Refusal::NoEntry => "NoEntry",
            Refusal::Several(_) => "Several",
            Refusal::Unsettled => "Unsettled",
            Refusal::KeyTaken(_) => "KeyTaken",
            Refusal::Behind(_) => "Behind",
            Refusal::Forged(_) => "Forged",
        }
    }

    /// The offset of the fault in a text, from 0, if it has one.
    pub fn place(self) -> Option<usize>
        ensures { result ≡ refusal_place self }
    {
        match self {
            Refusal::Text(fault) => Unspelled::Text(fault).place(),
            Refusal::Slot(fault) => Unspelled::Slot(fault).place(),
            Refusal::Broken { place, .. } => Some(place),
            _ => None,
        }
    }

    /// The id that it names, if any.
    pub fn id(self) -> Option<OpId>
        ensures { result ≡ refusal_id self }
    {
        match self {
            Refusal::Clash(id) => Some(id),
            Refusal::Basis(id) => Some(id),
            Refusal::HasNote(id) => Some(id),
            Refusal::Office(fault) => fault.id(),
            Refusal::Several(id) => Some(id),
            Refusal::KeyTaken(id) => Some(id),
            Refusal::Behind(id) => Some(id),
            Refusal::Forged(id) => Some(id),
            _ => None,
        }
    }
}

impl fmt::Display for Refusal {
    fn fmt<W: fmt::Write>(&self, f: &mut fmt::Formatter<W>) -> fmt::Result {
        match self {
            Refusal::Text(fault) => Unspelled::Text(*fault).fmt(f),
            Refusal::Slot(fault) => Unspelled::Slot(*fault).fmt(f),
            Refusal::Broken { condition, place } => {
                let fault = Unspelled::Broken {
                    condition: *condition,
                    place: *place,
                };
                fault.fmt(f)
            }
            Refusal::Office(fault) => fault.fmt(f),
            refusal => {
                let name = refusal.name();
                match refusal.id() {
                    Some(id) => write!(f, "{name} {id}"),
                    None => f.write_str(name),
                }
            }
        }
    }
}

/// A problem of an input file. It prints as the fault's name and its place.
#[derive(Clone, Copy, Debug, PartialEq, Eq)]
pub enum InputFault {
    NotOpened,
    /// Reading failed after this many bytes.
    ReadFailed(usize),
    /// The file exceeds the limit.
    TooLarge,
    /// The bytes are not a file of the kind that is read; this is their first fault.
    BadFile { fault: FileFault, place: usize },
    /// The new file of an office file exists: another command of the office works, or one was killed.
    Busy,
    /// The bytes are not an office file.
    NotOffice,
}

impl InputFault {
    ghost use Rattle.reg_engine.specs.Names.{input_name, input_place};

    /// The name that is printed.
    pub fn name(self) -> &'static str
        ensures { result.now ≡ input_name self }
    {
        match self {
            InputFault::NotOpened => "NotOpened",
            InputFault::ReadFailed(_) => "ReadFailed",
            InputFault::TooLarge => "TooLarge",
            InputFault::BadFile { fault, .. } => fault.name(),
            InputFault::Busy => "Busy",
            InputFault::NotOffice => "NotOffice",
        }
    }

    /// The offset of the fault, from 0, if it has one.
    pub fn place(self) -> Option<usize>
        ensures { result ≡ input_place self }
    {
        match self {
            InputFault::ReadFailed(place) => Some(place),
            InputFault::BadFile { place, .. } => Some(place),
            _ => None,
        }
    }
}

impl fmt::Display for InputFault {
    fn fmt<W: fmt::Write>(&self, f: &mut fmt::Formatter<W>) -> fmt::Result {
        match self {
            InputFault::BadFile { fault, place } => write!(f, "{fault} at {place}"),
            fault => {
                let name = fault.name();
                match fault.place() {
                    Some(place) => write!(f, "{name} at {place}"),
                    None => f.write_str(name),
                }
            }
        }
    }
}

/// A problem of the output.
#[derive(Clone, Copy, Debug, PartialEq, Eq, Error)]
pub enum OutFault {
    /// No file was made, or a complete one could not be renamed.
    #[error("NotOpened")]
    NotOpened,
    /// The new file exists: another command writes it.
    #[error("NewExists")]
    NewExists,
    /// The file would exceed the limit. The output was not opened.
    #[error("TooLarge")]
    TooLarge,
    /// Exactly this many bytes were written.
    #[error("WriteFailed at {0}")]
    WriteFailed(usize),
    /// Reading the old file again failed after this many bytes.
    #[error("ReadFailed at {0}")]
    ReadFailed(usize),
    /// Another program replaced the file after it was read, or the new file.
    #[error("Changed")]
    Changed,
    /// The new file is there, but a power cut may leave the old one: the sync of the folder failed.
    #[error("NotSynced")]
    NotSynced,
}

impl OutFault {
    ghost use Rattle.reg_engine.specs.Names.{out_name, out_place};

    /// The name that is printed.
    pub fn name(self) -> &'static str
        ensures { result.now ≡ out_name self }
    {
        match self {
            OutFault::NotOpened => "NotOpened",
            OutFault::NewExists => "NewExists",
            OutFault::TooLarge => "TooLarge",
            OutFault::WriteFailed(_) => "WriteFailed",
            OutFault::ReadFailed(_) => "ReadFailed",
            OutFault::Changed => "Changed",
            OutFault::NotSynced => "NotSynced",
        }
    }

    /// The number of bytes that were written, or read again, before it, if it has a place.
    pub fn place(self) -> Option<usize>
        ensures { result ≡ out_place self }
    {
        match self {
            OutFault::WriteFailed(place) => Some(place),
            OutFault::ReadFailed(place) => Some(place),
            _ => None,
        }
    }
}

/// A problem of a shelf.
#[derive(Clone, Copy, Debug, PartialEq, Eq, Error)]
pub enum ShelfProblem {
    #[error("NotOpened")]
    NotOpened,
    /// Another command has locked it.
    #[error("Busy")]
    Busy,
    /// The file system has no locks, so another command could change it at the same time. Nothing was changed.
    #[error("NotLocked")]
    NotLocked,
    /// It is not a shelf with a register.
    #[error("NotShelf")]
    NotShelf,
    /// The register's file exceeds the size of the shelf. Nothing was kept.
    #[error("TooLarge")]
    TooLarge,
    /// It has the old register or the new one. Nothing was printed.
    #[error("DiskFailed")]
    DiskFailed,
}

impl ShelfProblem {
    ghost use Rattle.reg_engine.specs.Names.{problem_name};

    /// The name that is printed.
    pub fn name(self) -> &'static str
        ensures { result.now ≡ problem_name self }
    {
        match self {
            ShelfProblem::NotOpened => "NotOpened",
            ShelfProblem::Busy => "Busy",
            ShelfProblem::NotLocked => "NotLocked",
            ShelfProblem::NotShelf => "NotShelf",
            ShelfProblem::TooLarge => "TooLarge",
            ShelfProblem::DiskFailed => "DiskFailed",
        }
    }
}

/// Why a command failed. It prints as one line.
#[derive(Clone, Copy, Debug, PartialEq, Eq, Error)]
pub enum CliFault {
    #[error("refused: {0}")]
    Refused(Refusal),
    /// The number is that of the file among those that the command reads, from 1.
    #[error("file {number}: {fault}")]
    File { number: usize, fault: InputFault },
    #[error("out: {0}")]
    Out(OutFault),
    #[error("out of memory")]
    Memory,
    #[error("shelf: {0}")]
    Shelf(ShelfProblem),
    /// The office file was not replaced, or a power cut may undo that. The register is unchanged.
    #[error("office: {0}")]
    Office(OfficeFileFault),
}

impl CliFault {
    ghost use Rattle.reg_engine.specs.Names.{fault_name, fault_place, fault_id};

    /// The name of the fault, as it is printed.
    pub fn name(self) -> &'static str
        ensures { result.now ≡ fault_name self }
    {
        match self {
            CliFault::Refused(refusal) => refusal.name(),
            CliFault::File { fault, .. } => fault.name(),
            CliFault::Out(fault) => fault.name(),
            CliFault::Memory => "Memory",
            CliFault::Shelf(problem) => problem.name(),
            CliFault::Office(OfficeFileFault::NotOpened) => "NotOpened",
            CliFault::Office(OfficeFileFault::TooLarge) => "TooLarge",
            CliFault::Office(OfficeFileFault::WriteFailed(_)) => "WriteFailed",
        }
    }

    /// The offset of the fault, from 0, if it has one.
    pub fn place(self) -> Option<usize>
        ensures { result ≡ fault_place self }
    {
        match self {
            CliFault::Refused(refusal) => refusal.place(),
            CliFault::File { fault, .. } => fault.place(),
            CliFault::Out(fault) => fault.place(),
            CliFault::Office(OfficeFileFault::WriteFailed(place)) => Some(place),
            _ => None,
        }
    }

    /// The id that it names, if any.
    pub fn id(self) -> Option<OpId>
        ensures { result ≡ fault_id self }
    {
        match self {
            CliFault::Refused(refusal) => refusal.id(),
            _ => None,
        }
    }

    /// Whether the fault comes after the new register is kept.
    pub fn is_after(&self) -> bool
        ensures { result ≡ is_after self.now }
    {
        match self {
            CliFault::Out(OutFault::NotSynced) => true,
            _ => false,
        }
    }

    /// The exit status of the program: 1 for a refusal, 3 for a file, the output, a shelf or an office file, 4 for memory.
    pub fn status(&self) -> u8
        ensures { result ≡ status_of self.now }
    {
        match self {
            CliFault::Refused(_) => 1,
            CliFault::File { .. } | CliFault::Out(_) | CliFault::Shelf(_) | CliFault::Office(_) =>
                3,
            CliFault::Memory => 4,
        }
    }
}
