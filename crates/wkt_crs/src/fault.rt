//! Why a text spells no coordinate reference system.

ghost use Rattle.std.specs.Prelude.{◌≡◌};

use crs_value::Condition;
use std::fmt;
use wkt_grammar::SlotFault;
use wkt_tree::TextFault;

/// The first fault of a text. It prints as its name, what it names, and its place.
#[derive(Clone, Copy, Debug, PartialEq, Eq)]
pub enum Unspelled {
    /// A fault of the bytes, the tokens or the tree.
    Text(TextFault),
    /// A fault of a node's arguments.
    Slot(SlotFault),
    /// A condition fails for the system whose keyword is at the place.
    Broken { condition: Condition, place: usize },
}

impl Unspelled {
    ghost use Rattle.wkt_crs.specs.Unspelled.{name_of, place_of};

    /// The name that is printed.
    pub fn name(self) -> &'static str
        ensures { result.now ≡ name_of self }
    {
        match self {
            Unspelled::Text(fault) => fault.name(),
            Unspelled::Slot(fault) => fault.name(),
            Unspelled::Broken { .. } => "Broken",
        }
    }

    /// The offset of the fault, from 0, if it has one.
    pub fn place(self) -> Option<usize>
        ensures { result ≡ place_of self }
    {
        match self {
            Unspelled::Text(fault) => fault.place(),
            Unspelled::Slot(fault) => Some(fault.place()),
            Unspelled::Broken { place, .. } => Some(place),
        }
    }
}

impl fmt::Display for Unspelled {
    fn fmt<W: fmt::Write>(&self, f: &mut fmt::Formatter<W>) -> fmt::Result {
        match self {
            Unspelled::Slot(fault) => fault.fmt(f),
            Unspelled::Broken { condition, place } => {
                let condition = condition.name();
                write!(f, "Broken {condition} at {place}")
            }
            fault => {
                let name = fault.name();
                match fault.place() {
                    Some(place) => write!(f, "{name} at {place}"),
                    None => f.write_str(name),
                }
            }
        }
    }
}

/// Why a text was not read: its first fault, or `Memory`, which says nothing about it.
#[derive(Clone, Copy, Debug, PartialEq, Eq)]
pub enum ReadFault {
    /// A fault of the bytes, the tokens or the tree.
    Text(TextFault),
    /// A fault of a node's arguments.
    Slot(SlotFault),
    /// A condition fails for the system whose keyword is at the place.
    Broken { condition: Condition, place: usize },
    /// An allocation failed.
    Memory,
}

impl ReadFault {
    ghost use Rattle.std.specs.Prelude.{option_and_then};
    ghost use Rattle.wkt_crs.specs.Unspelled.{place_of, read_name, unspelled};

    /// The fault of the text, if that is the reason.
    pub fn unspelled(self) -> Option<Unspelled>
        ensures { result ≡ unspelled self }
    {
        match self {
            ReadFault::Text(fault) => Some(Unspelled::Text(fault)),
            ReadFault::Slot(fault) => Some(Unspelled::Slot(fault)),
            ReadFault::Broken { condition, place } => Some(Unspelled::Broken { condition, place }),
            ReadFault::Memory => None,
        }
    }

    /// The name that is printed.
    pub fn name(self) -> &'static str
        ensures { result.now ≡ read_name self }
    {
        match self.unspelled() {
            Some(fault) => fault.name(),
            None => "Memory",
        }
    }

    /// The offset of the fault, from 0, if it has one.
    pub fn place(self) -> Option<usize>
        ensures { result ≡ option_and_then place_of (unspelled self) }
    {
        match self.unspelled() {
            Some(fault) => fault.place(),
            None => None,
        }
    }
}

impl fmt::Display for ReadFault {
    fn fmt<W: fmt::Write>(&self, f: &mut fmt::Formatter<W>) -> fmt::Result {
        match self.unspelled() {
            Some(fault) => fault.fmt(f),
            None => f.write_str("out of memory"),
        }
    }
}
