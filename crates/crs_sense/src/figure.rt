//! Ellipsoids with odd numbers.

ghost use Rattle.std.specs.Prelude.{◌≡◌};
ghost use Rattle.std.specs.Option.{option_map};
ghost use Rattle.crs_exact.specs.Said.{sentence};
ghost use Rattle.crs_sense.specs.Figure.{is_earth, would_be_earth, is_no_earth, is_no_inverse, is_figure_odd, figure_what, figure_said, figure_of, figure};

use crs_exact::{
    END, Finding, Piece, ellipsoid_in, is_below, is_beyond, is_nearly, is_product_below,
    is_product_beyond, length_of,
};
use crs_number::Decimal;
use crs_part::{Ellipsoid, LengthUnit, Single};

/// The ellipsoid of the system, if it has another number in the place of its inverse flattening, or the semi-major axis of the Earth in
/// another unit.
pub(crate) fn odd_figure(crs: &Single) -> Option<Finding<'_>>
    ensures { option_map sentence result ≡ figure crs.now }
{
    match ellipsoid_in(crs) {
        Some(ellipsoid) => figure_of(ellipsoid),
        None => None,
    }
}

fn figure_of(ellipsoid: &Ellipsoid) -> Option<Finding<'_>>
    ensures { option_map sentence result ≡ figure_of ellipsoid.now }
{
    if !is_figure_odd(ellipsoid) {
        return None;
    }
    Some(figure_said(ellipsoid))
}

fn figure_said(ellipsoid: &Ellipsoid) -> Finding<'_>
    ensures { sentence result ≡ figure_said ellipsoid.now }
{
    Finding::of_words([
        Piece::Text(b"\""),
        Piece::Text(ellipsoid.name.as_bytes()),
        Piece::Text(b"\" has the semi-major axis "),
        Piece::Number(&ellipsoid.radius),
        Piece::Text(b" and the inverse flattening "),
        Piece::Number(&ellipsoid.flattening),
        Piece::Text(b": "),
        Piece::Text(figure_what(ellipsoid.radius, ellipsoid.flattening)),
        END,
        END,
        END,
        END,
    ])
}

fn is_figure_odd(ellipsoid: &Ellipsoid) -> bool
    ensures { result ≡ is_figure_odd ellipsoid.now }
{
    is_no_inverse(ellipsoid.flattening)
        || is_nearly(ellipsoid.flattening, ellipsoid.radius)
        || (is_no_earth(ellipsoid.radius, &ellipsoid.unit) && would_be_earth(ellipsoid.radius))
}

// Above 0 and below 1: a flattening.
fn is_no_inverse(number: Decimal) -> bool
    ensures { result ≡ is_no_inverse number }
{
    number.coefficient() > 0 && is_below(number, 1, 0)
}

fn is_no_earth(radius: Decimal, unit: &Option<LengthUnit>) -> bool
    ensures { result ≡ is_no_earth radius unit.now }
{
    match unit {
        Some(unit) => !is_earth(radius, length_of(unit).factor),
        None => is_below(radius, 6_350_000, 0) || is_beyond(radius, 6_400_000, 0),
    }
}

fn is_earth(radius: Decimal, factor: Decimal) -> bool
    ensures { result ≡ is_earth radius factor }
{
    !is_product_below(radius, factor, 6_350_000, 0)
        && !is_product_beyond(radius, factor, 6_400_000, 0)
}

// The number alone, as metres, kilometres or feet.
fn would_be_earth(radius: Decimal) -> bool
    ensures { result ≡ would_be_earth radius }
{
    (!is_below(radius, 6_350_000, 0) && !is_beyond(radius, 6_400_000, 0))
        || (!is_below(radius, 6_350, 0) && !is_beyond(radius, 6_400, 0))
        || (!is_below(radius, 20_833_334, 0) && !is_beyond(radius, 20_997_375, 0))
}

fn figure_what(radius: Decimal, flattening: Decimal) -> &'static [u8]
    ensures { result.now ≡ figure_what radius flattening }
{
    if is_no_inverse(flattening) {
        return b"is the second number the flattening?";
    }
    if is_nearly(flattening, radius) {
        return b"is the second number the semi-minor axis?";
    }
    b"in metres, kilometres or feet it would be an Earth"
}
