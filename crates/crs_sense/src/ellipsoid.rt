//! Ellipsoids with other numbers than their name says.

ghost use Rattle.std.specs.Prelude.{◌≡◌, ◌<◌, ◌||◌, IfSome};
ghost use Rattle.std.specs.Option.{option_map};
ghost use Rattle.crs_exact.specs.Said.{sentence};
ghost use Rattle.crs_sense.specs.Ellipsoid.{radius, flattening, source, radius_said, is_radius_off, is_radius_from, is_flattening_from, is_row_off, ellipsoid_said, beside, ellipsoid_of, ellipsoid};

use crate::ellipsoids::ELLIPSOIDS;
use crs_exact::{
    Finding, Piece, before, ellipsoid_in, fixed, is_below, is_beyond, is_product_below,
    is_product_beyond, length_of, past, row_of,
};
use crs_number::Decimal;
use crs_part::{Ellipsoid, LengthUnit, Single};

/// The ellipsoid of the system, if it has a known name, and a semi-major axis that differs from the known one by more than 0.1 mm, or an
/// inverse flattening that differs by more than 1.4 x 10^-7, which moves the poles by 0.01 mm.
pub(crate) fn odd_ellipsoid(crs: &Single) -> Option<Finding<'_>>
    ensures { option_map sentence result ≡ ellipsoid crs.now }
{
    match ellipsoid_in(crs) {
        Some(ellipsoid) => ellipsoid_of(ellipsoid),
        None => None,
    }
}

fn ellipsoid_of(ellipsoid: &Ellipsoid) -> Option<Finding<'_>>
    ensures { option_map sentence result ≡ ellipsoid_of ellipsoid.now }
{
    match row_of(ELLIPSOIDS, ellipsoid.name.as_bytes()) {
        Some(row) => beside(ellipsoid, row),
        None => None,
    }
}

fn beside<'a>(ellipsoid: &'a Ellipsoid, row: &'a [u8]) -> Option<Finding<'a>>
    ensures { option_map sentence result ≡ beside ellipsoid.now row.now }
{
    if !is_row_off(row, ellipsoid) {
        return None;
    }
    Some(ellipsoid_said(ellipsoid, row))
}

fn ellipsoid_said<'a>(ellipsoid: &'a Ellipsoid, row: &'a [u8]) -> Finding<'a>
    ensures { sentence result ≡ ellipsoid_said ellipsoid.now row.now }
{
    Finding::of_words([
        Piece::Text(b"the ellipsoid \""),
        Piece::Text(ellipsoid.name.as_bytes()),
        Piece::Text(b"\" is given with "),
        Piece::Number(&ellipsoid.radius),
        Piece::Text(b" and 1/f "),
        Piece::Number(&ellipsoid.flattening),
        Piece::Text(b", and "),
        Piece::Text(source(row)),
        Piece::Text(b" has "),
        Piece::Text(radius_said(row)),
        Piece::Text(b" and "),
        Piece::Text(flattening(row)),
    ])
}

fn is_row_off(row: &[u8], ellipsoid: &Ellipsoid) -> bool
    ensures { result ≡ is_row_off row.now ellipsoid.now }
{
    is_radius_from(
        fixed(radius(row), b"000000000"),
        ellipsoid.radius,
        &ellipsoid.unit,
    ) || is_flattening_from(
        fixed(flattening(row), b"000000000000"),
        ellipsoid.flattening,
    )
}

fn is_radius_from(known: Option<u128>, given: Decimal, unit: &Option<LengthUnit>) -> bool
    requires { IfSome known (λ n. n < 600000000000000000000000) }
    ensures { result ≡ is_radius_from known given unit.now }
{
    match known {
        Some(known) => is_radius_off(known, given, unit),
        None => false,
    }
}

// Without a unit the semi-major axis is in metres.
fn is_radius_off(known: u128, given: Decimal, unit: &Option<LengthUnit>) -> bool
    requires { known < 600000000000000000000000 }
    ensures { result ≡ is_radius_off known given unit.now }
{
    let low = known.saturating_sub(100_000);
    let high = known + 100_000;
    match unit {
        Some(unit) => {
            is_product_below(given, length_of(unit).factor, low, 9)
                || is_product_beyond(given, length_of(unit).factor, high, 9)
        }
        None => is_below(given, low, 9) || is_beyond(given, high, 9),
    }
}

fn is_flattening_from(known: Option<u128>, given: Decimal) -> bool
    requires { IfSome known (λ n. n < 600000000000000000000000) }
    ensures { result ≡ is_flattening_from known given }
{
    match known {
        Some(known) => {
            is_below(given, known.saturating_sub(140_000), 12)
                || is_beyond(given, known + 140_000, 12)
        }
        None => false,
    }
}

fn radius(row: &[u8]) -> &[u8]
    ensures { result.now ≡ radius row.now }
{
    before(past(row, b';'), b';')
}

fn flattening(row: &[u8]) -> &[u8]
    ensures { result.now ≡ flattening row.now }
{
    before(past(past(row, b';'), b';'), b';')
}

fn source(row: &[u8]) -> &[u8]
    ensures { result.now ≡ source row.now }
{
    before(past(past(past(row, b';'), b';'), b';'), b';')
}

// The semi-major axis as the source has it, or else in metres.
fn radius_said(row: &[u8]) -> &[u8]
    ensures { result.now ≡ radius_said row.now }
{
    let said = past(past(past(past(row, b';'), b';'), b';'), b';');
    if said.len() == 0 {
        return radius(row);
    }
    said
}
