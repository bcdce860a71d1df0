//! Codes of EPSG's registry, and the rows of what they name.

ghost use Rattle.std.specs.Prelude.{◌≡◌};
ghost use Rattle.std.specs.Option.{option_map};
ghost use Rattle.crs_conversion.specs.Codes.{number_in, epsg_code, known, is_among, names, first_name, has_name, needs};

use crs_exact::{before, is_named, past, row_coded, split_piece};
use crs_number::Decimal;
use crs_part::{Ident, NumberOrText};

/// The row of the table whose code is the first identifier, if that is of EPSG.
pub(crate) fn known<'a>(table: &'a [u8], ids: &[Ident]) -> Option<&'a [u8]>
    ensures { option_map (λ row. row.now) result ≡ known table.now ids.now }
{
    match epsg_code(ids) {
        Some(code) => row_coded(table, code),
        None => None,
    }
}

/// The number of the first identifier, if that is of EPSG.
pub(crate) fn epsg_code(ids: &[Ident]) -> Option<Decimal>
    ensures { result ≡ epsg_code ids.now }
{
    match ids.split_first() {
        Some((id, _)) => {
            if is_named(id.authority.as_bytes(), b"EPSG") {
                return number_in(&id.code);
            }
            None
        }
        None => None,
    }
}

fn number_in(code: &NumberOrText) -> Option<Decimal>
    ensures { result ≡ number_in code.now }
{
    match code {
        NumberOrText::Number(number) => Some(*number),
        NumberOrText::Text(_) => None,
    }
}

/// The names of a row, with commas between them.
pub(crate) fn names(row: &[u8]) -> &[u8]
    ensures { result.now ≡ names row.now }
{
    before(past(row, b';'), b';')
}

/// The name that EPSG has.
pub(crate) fn first_name(row: &[u8]) -> &[u8]
    ensures { result.now ≡ first_name row.now }
{
    before(names(row), b',')
}

/// The codes of the parameters that a method of the table needs, with commas between them.
pub(crate) fn needs(row: &[u8]) -> &[u8]
    ensures { result.now ≡ needs row.now }
{
    before(past(past(row, b';'), b';'), b';')
}

/// Whether this is one of the names of the row.
pub(crate) fn has_name(row: &[u8], name: &[u8]) -> bool
    ensures { result ≡ has_name row.now name.now }
{
    is_among(names(row), name)
}

fn is_among(names: &[u8], name: &[u8]) -> bool
    ensures { result ≡ is_among names.now name.now }
{
    let mut rest = names;
    while let Some((first, others)) = split_piece(rest, b',') {
        if is_named(name, first) {
            return true;
        }
        rest = others;
    }
    is_named(name, rest)
}
