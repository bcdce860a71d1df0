//! Why an office refuses a command.

ghost use Rattle.std.specs.Prelude.{◌≡◌};

use reg_op::OpId;
use std::fmt;

/// Why an office refuses a command. It prints as its name and the entry that it names.
#[derive(Clone, Copy, Debug, PartialEq, Eq)]
pub enum OfficeFault {
    /// The note has more than 200 bytes.
    NoteTooLong,
    /// The register has no such entry.
    UnknownEntry(OpId),
    /// An entry would supersede itself.
    SameEntry,
    AlreadyRetired(OpId),
    /// The old entry is already superseded by this one.
    AlreadySuperseded(OpId),
    /// A number would exceed 4,294,967,295.
    CountSpent,
    Memory,
}

impl OfficeFault {
    ghost use Rattle.reg_office.specs.Names.{office_name, office_id};

    /// The name that is printed.
    pub fn name(self) -> &'static str
        ensures { result.now ≡ office_name self }
    {
        match self {
            OfficeFault::NoteTooLong => "NoteTooLong",
            OfficeFault::UnknownEntry(_) => "UnknownEntry",
            OfficeFault::SameEntry => "SameEntry",
            OfficeFault::AlreadyRetired(_) => "AlreadyRetired",
            OfficeFault::AlreadySuperseded(_) => "AlreadySuperseded",
            OfficeFault::CountSpent => "CountSpent",
            OfficeFault::Memory => "Memory",
        }
    }

    /// The entry that it names, if any.
    pub fn id(self) -> Option<OpId>
        ensures { result ≡ office_id self }
    {
        match self {
            OfficeFault::NoteTooLong => None,
            OfficeFault::UnknownEntry(id) => Some(id),
            OfficeFault::SameEntry => None,
            OfficeFault::AlreadyRetired(id) => Some(id),
            OfficeFault::AlreadySuperseded(id) => Some(id),
            OfficeFault::CountSpent => None,
            OfficeFault::Memory => None,
        }
    }
}

impl fmt::Display for OfficeFault {
    fn fmt<W: fmt::Write>(&self, f: &mut fmt::Formatter<W>) -> fmt::Result {
        if let OfficeFault::Memory = self {
            return f.write_str("out of memory");
        }
        let name = self.name();
        match self.id() {
            Some(id) => write!(f, "{name} {id}"),
            None => f.write_str(name),
        }
    }
}
