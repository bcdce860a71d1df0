//! False eastings and northings in another unit than the axes.

ghost use Rattle.std.specs.Prelude.{◌≡◌};
ghost use Rattle.std.specs.List.{find};
ghost use Rattle.std.specs.Option.{option_map};
ghost use Rattle.crs_exact.specs.Said.{sentence};
ghost use Rattle.crs_conversion.specs.FalseUnit.{is_false_origin, is_other_unit, are_other_units, is_false_unit, false_said, false_in, false_unit};

use crs_exact::{
    END, Finding, Piece, either, is_named, is_same_size, projected_in, unit_of, unit_said,
};
use crs_part::{Parameter, Projected, Single, Unit, UnitDefinition};

/// The first false easting or northing of a system, not 0, in another unit than the first axis.
pub fn odd_false_unit(crs: &Single) -> Option<Finding<'_>>
    ensures { option_map sentence result ≡ false_unit crs.now }
{
    match projected_in(crs) {
        Some(crs) => false_in(crs),
        None => None,
    }
}

fn false_in(crs: &Projected) -> Option<Finding<'_>>
    ensures { option_map sentence result ≡ false_in crs.now }
{
    let axis = either(&crs.axes.first.unit, &crs.unit);
    match false_of(axis, crs.conversion.parameters.as_slice()) {
        Some(parameter) => Some(false_said(axis, parameter)),
        None => None,
    }
}

fn false_said<'a>(axis: &'a Option<Unit>, parameter: &'a Parameter) -> Finding<'a>
    ensures { sentence result ≡ false_said axis.now parameter.now }
{
    Finding {
        parameter: Some(parameter),
        pieces: [
            Piece::Text(b"the first axis is in "),
            Piece::Text(unit_said(axis)),
            END,
            END,
            END,
            END,
            END,
            END,
            END,
            END,
            END,
            END,
        ],
    }
}

fn false_of<'a>(axis: &Option<Unit>, parameters: &'a [Parameter]) -> Option<&'a Parameter>
    ensures { option_map (λ p. p.now) result ≡ find (is_false_unit axis.now) parameters.now }
{
    parameters.iter().find(|p| is_false_unit(axis, p))
}

fn is_false_unit(axis: &Option<Unit>, parameter: &Parameter) -> bool
    ensures { result ≡ is_false_unit axis.now parameter.now }
{
    is_false_origin(parameter.name.as_bytes())
        && parameter.value.coefficient() != 0
        && are_other_units(axis, &parameter.unit)
}

fn is_false_origin(name: &[u8]) -> bool
    ensures { result ≡ is_false_origin name.now }
{
    is_named(name, b"false easting")
        || is_named(name, b"false northing")
        || is_named(name, b"easting at false origin")
        || is_named(name, b"northing at false origin")
        || is_named(name, b"easting at projection centre")
        || is_named(name, b"northing at projection centre")
}

fn are_other_units(axis: &Option<Unit>, own: &Option<Unit>) -> bool
    ensures { result ≡ are_other_units axis.now own.now }
{
    match (axis, own) {
        (Some(axis), Some(own)) => is_other_unit(unit_of(axis), unit_of(own)),
        (Some(_), None) => false,
        (None, _) => false,
    }
}

// Another name and another factor.
fn is_other_unit(one: &UnitDefinition, other: &UnitDefinition) -> bool
    ensures { result ≡ is_other_unit one.now other.now }
{
    !is_same_size(one.factor, other.factor) && !is_named(other.name.as_bytes(), one.name.as_bytes())
}
