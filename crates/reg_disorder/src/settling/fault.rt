//! Why settling is refused.

ghost use Rattle.std.specs.Prelude.{◌≡◌};

use reg_op::OpId;
use std::fmt;

/// Why settling is refused. It prints as its name and the entry that it names.
#[derive(Clone, Copy, Debug, PartialEq, Eq)]
pub enum SettleFault {
    /// The register has no such entry.
    UnknownEntry(OpId),
    AlreadyRetired(OpId),
    /// An entry that is kept before this one has its key with another text.
    KeyTaken(OpId),
    Memory,
}

impl SettleFault {
    ghost use Rattle.reg_disorder.specs.Names.{name_of, id_of};

    /// The name that is printed.
    pub fn name(self) -> &'static str
        ensures { result.now ≡ name_of self }
    {
        match self {
            SettleFault::UnknownEntry(_) => "UnknownEntry",
            SettleFault::AlreadyRetired(_) => "AlreadyRetired",
            SettleFault::KeyTaken(_) => "KeyTaken",
            SettleFault::Memory => "Memory",
        }
    }

    /// The entry that it names, if any.
    pub fn id(self) -> Option<OpId>
        ensures { result ≡ id_of self }
    {
        match self {
            SettleFault::UnknownEntry(id) => Some(id),
            SettleFault::AlreadyRetired(id) => Some(id),
            SettleFault::KeyTaken(id) => Some(id),
            SettleFault::Memory => None,
        }
    }
}

impl fmt::Display for SettleFault {
    fn fmt<W: fmt::Write>(&self, f: &mut fmt::Formatter<W>) -> fmt::Result {
        let name = self.name();
        match self.id() {
            Some(id) => write!(f, "{name} {id}"),
            None => f.write_str("out of memory"),
        }
    }
}
