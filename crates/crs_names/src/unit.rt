//! Units with another factor than their name says.

ghost use Rattle.std.specs.Prelude.{◌≡◌, ◌<◌};
ghost use Rattle.crs_exact.specs.Said.{sentence};
ghost use Rattle.crs_names.specs.Unit.{factor, source, is_off, is_row_off, is_unit_odd, row_known, unit_said};

use crate::units::UNITS;
use crs_exact::{END, Finding, Piece, before, fixed, is_below, is_beyond, past, row_of};
use crs_number::Decimal;
use crs_part::UnitDefinition;

/// Whether the unit has a known name, and a factor that differs from the known one by more than one part in 10^10.
pub(crate) fn is_unit_odd(unit: &UnitDefinition) -> bool
    ensures { result ≡ is_unit_odd unit.now }
{
    match row_of(UNITS, unit.name.as_bytes()) {
        Some(row) => is_row_off(row, unit.factor),
        None => false,
    }
}

fn is_row_off(row: &[u8], given: Decimal) -> bool
    ensures { result ≡ is_row_off row.now given }
{
    match fixed(factor(row), b"00000000000000000000") {
        Some(known) => is_off(known, given),
        None => false,
    }
}

fn is_off(known: u128, factor: Decimal) -> bool
    requires { known < 600000000000000000000000 }
    ensures { result ≡ is_off known factor }
{
    is_below(factor, known * 9_999_999_999, 30) || is_beyond(factor, known * 10_000_000_001, 30)
}

/// The sentence of a unit: its factor, and the known one.
pub(crate) fn unit_said(unit: &UnitDefinition) -> Finding<'_>
    ensures { sentence result ≡ unit_said unit.now }
{
    let row = row_known(unit.name.as_bytes());
    Finding::of_words([
        Piece::Text(b"\""),
        Piece::Text(unit.name.as_bytes()),
        Piece::Text(b"\" is given as "),
        Piece::Number(&unit.factor),
        Piece::Text(b", and "),
        Piece::Text(source(row)),
        Piece::Text(b" has "),
        Piece::Text(factor(row)),
        END,
        END,
        END,
        END,
    ])
}

fn factor(row: &[u8]) -> &[u8]
    ensures { result.now ≡ factor row.now }
{
    before(past(row, b';'), b';')
}

fn source(row: &[u8]) -> &[u8]
    ensures { result.now ≡ source row.now }
{
    before(past(past(row, b';'), b';'), b';')
}

fn row_known(name: &[u8]) -> &'static [u8]
    ensures { result.now ≡ row_known name.now }
{
    match row_of(UNITS, name) {
        Some(row) => row,
        None => b"",
    }
}
