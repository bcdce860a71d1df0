//! Faults of a text, with their places.

ghost use Rattle.std.specs.Prelude.{◌≡◌};
ghost use Rattle.wkt_tree.specs.Names.{name_of, place_of};

use std::fmt;

/// The first fault of a text, with its place. It prints as its name and its place.
#[derive(Clone, Copy, Debug, PartialEq, Eq)]
pub enum TextFault {
    /// It has more bytes than a text may have.
    TooLong,
    /// It is not UTF-8, at its first invalid byte.
    NotUtf8(usize),
    /// A byte that neither begins a token nor is a blank.
    BadByte(usize),
    /// A quoted text that no mark closes, at the mark that opens it.
    TextOpen(usize),
    /// A number that does not have the form of a numeral.
    BadNumber(usize),
    /// A numeral that spells no decimal.
    NumberRange(usize),
    /// A token that is not allowed here.
    Unexpected(usize),
    /// An opening delimiter while the greatest number of delimiters is open.
    Depth(usize),
    /// The text ends before its tree does.
    EndEarly(usize),
    /// A token after the end of the tree.
    After(usize),
}

impl TextFault {
    /// The offset of the fault, from 0. A text that is too long has no place.
    pub fn place(&self) -> Option<usize>
        ensures { result ≡ place_of self.now }
    {
        match self {
            TextFault::TooLong => None,
            TextFault::NotUtf8(place) => Some(*place),
            TextFault::BadByte(place) => Some(*place),
            TextFault::TextOpen(place) => Some(*place),
            TextFault::BadNumber(place) => Some(*place),
            TextFault::NumberRange(place) => Some(*place),
            TextFault::Unexpected(place) => Some(*place),
            TextFault::Depth(place) => Some(*place),
            TextFault::EndEarly(place) => Some(*place),
            TextFault::After(place) => Some(*place),
        }
    }

    /// The name that is printed.
    pub fn name(&self) -> &'static str
        ensures { result.now ≡ name_of self.now }
    {
        match self {
            TextFault::TooLong => "TooLong",
            TextFault::NotUtf8(_) => "NotUtf8",
            TextFault::BadByte(_) => "BadByte",
            TextFault::TextOpen(_) => "TextOpen",
            TextFault::BadNumber(_) => "BadNumber",
            TextFault::NumberRange(_) => "NumberRange",
            TextFault::Unexpected(_) => "Unexpected",
            TextFault::Depth(_) => "Depth",
            TextFault::EndEarly(_) => "EndEarly",
            TextFault::After(_) => "After",
        }
    }
}

impl fmt::Display for TextFault {
    fn fmt<W: fmt::Write>(&self, f: &mut fmt::Formatter<W>) -> fmt::Result {
        let name = self.name();
        match self.place() {
            Some(place) => write!(f, "{name} at {place}"),
            None => f.write_str(name),
        }
    }
}
