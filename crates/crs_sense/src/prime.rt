//! Prime meridians with another longitude than their name says.

ghost use Rattle.std.specs.Prelude.{◌≡◌, ◌<◌};
ghost use Rattle.std.specs.Option.{option_map};
ghost use Rattle.crs_exact.specs.Said.{sentence};
ghost use Rattle.crs_sense.specs.Prime.{longitude, size, is_off, is_row_off, unit_named, source, prime_said, beside, prime_of, prime};

use crate::meridians::MERIDIANS;
use crs_exact::{
    END, Finding, Piece, after, angles_of, base_unit, before, begins, fixed, is_at, is_packed,
    past, prime_in, row_of, unit_or,
};
use crs_number::Decimal;
use crs_part::{PrimeMeridian, Single, UnitDefinition};

/// The prime meridian of the system, if it has a known name, and a longitude that differs from the known one by more than 10^-8 degrees,
/// which are a millimetre.
pub(crate) fn odd_prime(crs: &Single) -> Option<Finding<'_>>
    ensures { option_map sentence result ≡ prime crs.now }
{
    match prime_in(crs) {
        Some(meridian) => prime_of(meridian, unit_or(base_unit(&meridian.unit), angles_of(crs))),
        None => None,
    }
}

fn prime_of<'a>(
    meridian: &'a PrimeMeridian,
    unit: Option<&'a UnitDefinition>,
) -> Option<Finding<'a>>
    ensures { option_map sentence result ≡ prime_of meridian.now (option_map (λ u. u.now) unit.entry) }
{
    match row_of(MERIDIANS, meridian.name.as_bytes()) {
        Some(row) => beside(meridian, unit, row),
        None => None,
    }
}

fn beside<'a>(
    meridian: &'a PrimeMeridian,
    unit: Option<&'a UnitDefinition>,
    row: &'a [u8],
) -> Option<Finding<'a>>
    ensures { option_map sentence result ≡ beside meridian.now (option_map (λ u. u.now) unit.entry) row.now }
{
    if !is_row_off(row, meridian.longitude, unit) {
        return None;
    }
    Some(prime_said(meridian, unit, row))
}

fn prime_said<'a>(
    meridian: &'a PrimeMeridian,
    unit: Option<&'a UnitDefinition>,
    row: &'a [u8],
) -> Finding<'a>
    ensures { sentence result ≡ prime_said meridian.now (option_map (λ u. u.now) unit.entry) row.now }
{
    Finding::of_words([
        Piece::Text(b"the prime meridian \""),
        Piece::Text(meridian.name.as_bytes()),
        Piece::Text(b"\" is given at "),
        Piece::Number(&meridian.longitude),
        Piece::Text(b" "),
        Piece::Text(unit_named(unit)),
        Piece::Text(b", and "),
        Piece::Text(source(row)),
        Piece::Text(b" has "),
        Piece::Text(longitude(row)),
        Piece::Text(b" degrees"),
        END,
    ])
}

fn unit_named<'a>(unit: Option<&'a UnitDefinition>) -> &'a [u8]
    ensures { result.now ≡ unit_named (option_map (λ u. u.now) unit.entry) }
{
    match unit {
        Some(unit) => unit.name.as_bytes(),
        None => b"degrees",
    }
}

// Packed degrees, minutes and seconds are passed over.
fn is_row_off(row: &[u8], value: Decimal, unit: Option<&UnitDefinition>) -> bool
    ensures { result ≡ is_row_off row.now value (option_map (λ u. u.now) unit.entry) }
{
    !is_packed(unit)
        && is_off(
            fixed(size(row), b"000000000000"),
            value,
            unit,
            begins(longitude(row), b"-"),
        )
}

fn is_off(known: Option<u128>, value: Decimal, unit: Option<&UnitDefinition>, west: bool) -> bool
    ensures { result ≡ is_off known value (option_map (λ u. u.now) unit.entry) west }
{
    match known {
        Some(known) => {
            known < 1_000_000_000_000_000 && !is_at(value, unit, west, known, 10_000, 12)
        }
        None => false,
    }
}

fn longitude(row: &[u8]) -> &[u8]
    ensures { result.now ≡ longitude row.now }
{
    before(past(row, b';'), b';')
}

fn source(row: &[u8]) -> &[u8]
    ensures { result.now ≡ source row.now }
{
    past(past(row, b';'), b';')
}

// The longitude without its sign.
fn size(row: &[u8]) -> &[u8]
    ensures { result.now ≡ size row.now }
{
    if begins(longitude(row), b"-") {
        return after(longitude(row), 1);
    }
    longitude(row)
}
