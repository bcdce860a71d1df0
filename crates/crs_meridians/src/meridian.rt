//! Central meridians that are not those in the names of systems.

ghost use Rattle.std.specs.Prelude.{◌≡◌};
ghost use Rattle.std.specs.List.{find};
ghost use Rattle.std.specs.Option.{option_map};
ghost use Rattle.crs_exact.specs.Said.{sentence, parameter_said};
ghost use Rattle.crs_meridians.specs.Meridian.{is_central, is_at_greenwich, is_parameter_off, side_said, whole_said, tenths_said, name_says, off_from, meridian_in, meridian};

use crate::said::{SaidMeridian, meridian_said};
use crs_exact::{END, Finding, Piece, is_elsewhere, is_named, own_or_base, projected_in};
use crs_part::{AngleUnit, Parameter, PrimeMeridian, Projected, Single};

/// The central meridian of a system whose name ends with another meridian, such as `CM 45E`, if they are more than 0.01 degrees apart.
/// Systems on another prime meridian than Greenwich are passed over.
pub fn odd_meridian(crs: &Single) -> Option<Finding<'_>>
    ensures { option_map sentence result ≡ meridian crs.now }
{
    match projected_in(crs) {
        Some(crs) => meridian_in(crs),
        None => None,
    }
}

fn meridian_in(crs: &Projected) -> Option<Finding<'_>>
    ensures { option_map sentence result ≡ meridian_in crs.now }
{
    if !is_at_greenwich(&crs.base.prime_meridian) {
        return None;
    }
    match meridian_said(crs.name.as_bytes()) {
        Some(said) => off_from(said, &crs.base.unit, crs.conversion.parameters.as_slice()),
        None => None,
    }
}

fn off_from<'a>(
    said: SaidMeridian,
    base: &Option<AngleUnit>,
    parameters: &'a [Parameter],
) -> Option<Finding<'a>>
    ensures { option_map sentence result ≡ off_from base.now parameters.now said }
{
    match first_off(said, base, parameters) {
        Some(parameter) => Some(name_says(said, parameter)),
        None => None,
    }
}

fn first_off<'a>(
    said: SaidMeridian,
    base: &Option<AngleUnit>,
    parameters: &'a [Parameter],
) -> Option<&'a Parameter>
    ensures { option_map (λ p. p.now) result ≡ find (is_parameter_off said base.now) parameters.now }
{
    parameters.iter().find(|p| is_parameter_off(said, base, p))
}

fn is_parameter_off(said: SaidMeridian, base: &Option<AngleUnit>, parameter: &Parameter) -> bool
    ensures { result ≡ is_parameter_off said base.now parameter.now }
{
    is_central(parameter.name.as_bytes())
        && said.micro < 1_000_000_000
        && is_elsewhere(
            parameter.value,
            own_or_base(&parameter.unit, base),
            said.is_west,
            u128::from(said.micro),
            10_000,
        )
}

// A name has one decimal at most.
fn name_says(said: SaidMeridian, parameter: &Parameter) -> Finding<'_>
    ensures { sentence result ≡ parameter_said parameter.now (name_says said) }
{
    if said.micro % 1_000_000 == 0 {
        return whole_said(said.micro / 1_000_000, said.is_west, parameter);
    }
    tenths_said(said.micro / 100_000, said.is_west, parameter)
}

fn whole_said(number: u64, is_west: bool, parameter: &Parameter) -> Finding<'_>
    ensures { sentence result ≡ parameter_said parameter.now (whole_said number is_west) }
{
    let pieces = [
        Piece::Text(b"the name says "),
        Piece::Count(u128::from(number)),
        Piece::Text(side_said(is_west)),
        END,
        END,
        END,
        END,
        END,
        END,
        END,
        END,
        END,
    ];
    Finding {
        parameter: Some(parameter),
        pieces,
    }
}

fn tenths_said(number: u64, is_west: bool, parameter: &Parameter) -> Finding<'_>
    ensures { sentence result ≡ parameter_said parameter.now (tenths_said number is_west) }
{
    let pieces = [
        Piece::Text(b"the name says "),
        Piece::Count(u128::from(number / 10)),
        Piece::Text(b"."),
        Piece::Count(u128::from(number % 10)),
        Piece::Text(side_said(is_west)),
        END,
        END,
        END,
        END,
        END,
        END,
        END,
    ];
    Finding {
        parameter: Some(parameter),
        pieces,
    }
}

fn side_said<'a>(is_west: bool) -> &'a [u8]
    ensures { result.now ≡ side_said is_west }
{
    if is_west {
        return b" degrees west";
    }
    b" degrees east"
}

/// Whether the name is that of a central meridian.
pub(crate) fn is_central(name: &[u8]) -> bool
    ensures { result ≡ is_central name.now }
{
    is_named(name, b"longitude of natural origin") || is_named(name, b"central meridian")
}

/// Whether the prime meridian is Greenwich.
pub(crate) fn is_at_greenwich(meridian: &Option<PrimeMeridian>) -> bool
    ensures { result ≡ is_at_greenwich meridian.now }
{
    match meridian {
        Some(meridian) => meridian.longitude.coefficient() == 0,
        None => true,
    }
}
