//! What PROJ's tables take of an entry.

use crate::table::Table;
use crs_number::Decimal;

/// An entry's key and text.
#[derive(Clone, Copy)]
pub struct EntryText<'a> {
    pub authority: &'a [u8],
    pub code: &'a [u8],
    /// The canonical text.
    pub text: &'a [u8],
    /// The number that SQLite reads in the code.
    pub number: Option<Decimal>,
}

/// What PROJ's tables take of an entry.
#[derive(Drop)]
pub struct Filed<'a> {
    /// The printed id.
    pub entry: Vec<u8>,
    pub name: &'a [u8],
    pub keyed: EntryText<'a>,
    /// The table that takes its text, if there is one for the kind of the reference system.
    pub table: Option<Table>,
    /// The statements of a reference system whose table takes no text; none if PROJ's tables cannot hold it.
    pub rows: Vec<u8>,
}
