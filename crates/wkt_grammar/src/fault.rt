//! Faults of the arguments of a node, with their places.

ghost use Rattle.std.specs.Prelude.{◌≡◌};

use crate::table::SlotName;
use std::fmt;

/// The first slot fault, with its place: that of the argument, or of the delimiter that closes the node. It prints as its
/// name, the slot that it names, and its place.
#[derive(Clone, Copy, Debug, PartialEq, Eq)]
pub enum SlotFault {
    /// An argument of the wrong kind, keyword or place.
    NotHere(usize),
    /// A required slot is empty.
    Missing(SlotName, usize),
    /// A number that is not a count, where only a count can come.
    NotCount(usize),
    /// A word that is not listed, where only a listed word can come.
    WordUnknown(usize),
}

impl SlotFault {
    ghost use Rattle.wkt_grammar.specs.Slots.{place};
    ghost use Rattle.wkt_grammar.specs.Faults.{fault_name};

    /// The offset of the fault, from 0.
    pub fn place(self) -> usize
        ensures { result ≡ place self }
    {
        match self {
            SlotFault::NotHere(place) => place,
            SlotFault::Missing(_, place) => place,
            SlotFault::NotCount(place) => place,
            SlotFault::WordUnknown(place) => place,
        }
    }

    /// The name that is printed.
    pub fn name(self) -> &'static str
        ensures { result.now ≡ fault_name self }
    {
        match self {
            SlotFault::NotHere(_) => "NotHere",
            SlotFault::Missing(_, _) => "Missing",
            SlotFault::NotCount(_) => "NotCount",
            SlotFault::WordUnknown(_) => "WordUnknown",
        }
    }
}

impl fmt::Display for SlotFault {
    fn fmt<W: fmt::Write>(&self, f: &mut fmt::Formatter<W>) -> fmt::Result {
        let name = self.name();
        let place = self.place();
        match self {
            SlotFault::Missing(slot, _) => {
                let slot = slot.name();
                write!(f, "{name} {slot} at {place}")
            }
            _ => write!(f, "{name} at {place}"),
        }
    }
}
