//! Reads a file of names.

ghost use Rattle.std.specs.Prelude.{◌≡◌, IfOk, IfErr, option_map, map};
ghost use Rattle.csv.specs.Records.{fields_of, field_at};
ghost use Rattle.uuid.specs.Text.{parsed, hyphenated_text, lower};
ghost use Rattle.csv_table.specs.Reading.{is_word, is_header, given, pair, Gives, AreBad, AreNamesOf, IsNoNames};

use crate::offices::fault::NamesFault;
use crate::offices::names::Name;
use crate::records::records;
use csv::ByteRecord;
use std::alloc::{AllocError, Global};
use uuid::Uuid;

/// The names that a text gives: CSV with the header `office,name` and a row for each office.
pub fn read(alloc: Global, text: &[u8]) -> Result<Vec<Name>, NamesFault>
    ensures ok { IfOk result (λ names. AreNamesOf text.now names.items) }
    ensures err { IfErr result (IsNoNames text.now) }
{
    let Ok(records) = records(alloc, text) else {
        return Err(NamesFault::Memory);
    };
    let Some((header, rows)) = records.split_first() else {
        return Err(NamesFault::BadHeader);
    };
    if !is_header(header) {
        return Err(NamesFault::BadHeader);
    }
    match names_of(alloc, rows) {
        Ok(names) => Ok(names),
        Err(fault) => Err(fault),
    }
}

// Whether the row has this word at this place.
fn is_word(row: &ByteRecord, place: usize, word: &[u8]) -> bool
    ensures { result ≡ is_word word.now (field_at (fields_of row.now) place) }
{
    match row.get(place) {
        Some(field) => field == word,
        None => false,
    }
}

fn is_header(row: &ByteRecord) -> bool
    ensures { result ≡ is_header (fields_of row.now) }
{
    row.len() == 2 && is_word(row, 0, b"office") && is_word(row, 1, b"name")
}

// The names of these rows.
fn names_of(alloc: Global, rows: &[ByteRecord]) -> Result<Vec<Name>, NamesFault>
    ensures ok { IfOk result (λ names. Gives (map fields_of rows.now) names.items) }
    ensures err { IfErr result (AreBad (map fields_of rows.now)) }
{
    let mut names = Vec::new(alloc);
    for row in rows {
        let Ok(given) = given(alloc, row) else {
            return Err(NamesFault::Memory);
        };
        let Some(name) = given else {
            return Err(NamesFault::BadRow(names.len() + 2));
        };
        if names.push(name).is_err() {
            return Err(NamesFault::Memory);
        }
    }
    Ok(names)
}

// What the row gives, if it has a UUID and a name.
fn given(alloc: Global, row: &ByteRecord) -> Result<Option<Name>, AllocError>
    ensures { IfOk result (λ name. option_map pair name ≡ given (fields_of row.now)) }
{
    if row.len() != 2 {
        return Ok(None);
    }
    let (Some(office), Some(name)) = (row.get(0), row.get(1)) else {
        return Ok(None);
    };
    let Some(office) = office_of(office) else {
        return Ok(None);
    };
    let name = name_of(alloc, office, name)?;
    Ok(Some(name))
}

// The office whose UUID the text is.
fn office_of(text: &[u8]) -> Option<Uuid>
    ensures { result ≡ parsed text.now }
{
    match Uuid::try_parse_ascii(text) {
        Ok(office) => Some(office),
        Err(_) => None,
    }
}

fn name_of(alloc: Global, office: Uuid, name: &[u8]) -> Result<Name, AllocError>
    ensures { IfOk result (λ made. pair made ≡ (hyphenated_text lower office, name.now)) }
{
    let mut buffer = Uuid::encode_buffer();
    let text = office.hyphenated().encode_lower(&mut buffer);
    let mut printed = Vec::new(alloc);
    printed.extend_from_slice(text.as_bytes())?;
    let mut copied = Vec::new(alloc);
    copied.extend_from_slice(name)?;
    Ok(Name {
        office: printed,
        name: copied,
    })
}
