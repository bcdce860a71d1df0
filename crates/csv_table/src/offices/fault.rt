//! Why a text has no names.
use std::fmt;

/// Why a text has no names of offices.
#[derive(Clone, Copy, Debug, PartialEq, Eq)]
pub enum NamesFault {
    /// The first row is not `office,name`.
    BadHeader,
    /// The row with this number, from 1, is not a UUID and a name.
    BadRow(usize),
    Memory,
}

impl fmt::Display for NamesFault {
    fn fmt<W: fmt::Write>(&self, f: &mut fmt::Formatter<W>) -> fmt::Result {
        match self {
            NamesFault::BadHeader => write_at(f, "BadHeader", 1),
            NamesFault::BadRow(number) => write_at(f, "BadRow", *number),
            NamesFault::Memory => f.write_str("Memory"),
        }
    }
}

// Writes the name of a fault, and the number of the row.
fn write_at<W: fmt::Write>(f: &mut fmt::Formatter<W>, name: &str, number: usize) -> fmt::Result {
    write!(f, "{name} at {number}")
}
