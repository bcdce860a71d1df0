//! Why a device, a read or a write failed.

ghost use Rattle.std.specs.Prelude.{◌≡◌};
ghost use Rattle.byte_io.specs.declared.fault.InFault.TheVariants.{Memory};

use std::alloc::AllocError;
use std::fmt;

/// A failure of a device. The contract says which bytes it moved before.
#[derive(Clone, Copy, Debug, PartialEq, Eq)]
pub struct DeviceFault;

/// A target that could not be opened.
#[derive(Clone, Copy, Debug, PartialEq, Eq)]
pub struct NotOpened;

/// Why a source could not be read.
#[derive(Clone, Copy, Debug, PartialEq, Eq)]
pub enum InFault {
    /// The source failed, this many bytes after the start.
    ReadFailed(usize),
    Memory,
}

impl InFault {
    ghost use Rattle.byte_io.specs.Names.{in_name, in_place};

    /// The name that is printed.
    pub fn name(self) -> &'static str
        ensures { result.now ≡ in_name self }
    {
        match self {
            InFault::ReadFailed(_) => "ReadFailed",
            InFault::Memory => "Memory",
        }
    }

    /// The number of bytes that were read before it, if it has a place.
    pub fn place(self) -> Option<usize>
        ensures { result ≡ in_place self }
    {
        match self {
            InFault::ReadFailed(place) => Some(place),
            InFault::Memory => None,
        }
    }
}

impl fmt::Display for InFault {
    fn fmt<W: fmt::Write>(&self, f: &mut fmt::Formatter<W>) -> fmt::Result {
        let name = self.name();
        match self.place() {
            Some(place) => write!(f, "{name} at {place}"),
            None => f.write_str("out of memory"),
        }
    }
}

impl From<AllocError> for InFault {
    ghost from_gives = { λ _ e. e ≡ Memory };

    fn from(_e: AllocError) -> InFault {
        InFault::Memory
    }
}

/// The sink failed, or took nothing, after it took the first `written` bytes.
#[derive(Clone, Copy, Debug, PartialEq, Eq)]
pub struct WriteFault {
    pub written: usize,
}

/// Why bytes were not completely written to a target.
#[derive(Clone, Copy, Debug, PartialEq, Eq)]
pub enum PublishFault {
    NotOpened,
    /// Exactly this many bytes were written.
    WriteFailed(usize),
}

impl PublishFault {
    ghost use Rattle.byte_io.specs.Names.{publish_name, publish_place};

    /// The name that is printed.
    pub fn name(self) -> &'static str
        ensures { result.now ≡ publish_name self }
    {
        match self {
            PublishFault::NotOpened => "NotOpened",
            PublishFault::WriteFailed(_) => "WriteFailed",
        }
    }

    /// The number of bytes that were written before it, if it has a place.
    pub fn place(self) -> Option<usize>
        ensures { result ≡ publish_place self }
    {
        match self {
            PublishFault::NotOpened => None,
            PublishFault::WriteFailed(place) => Some(place),
        }
    }
}

impl fmt::Display for PublishFault {
    fn fmt<W: fmt::Write>(&self, f: &mut fmt::Formatter<W>) -> fmt::Result {
        let name = self.name();
        match self.place() {
            Some(place) => write!(f, "{name} at {place}"),
            None => f.write_str(name),
        }
    }
}
