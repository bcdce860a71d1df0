//! Parameters whose unit measures something else than their name tells.

ghost use Rattle.std.specs.Prelude.{◌≡◌};
ghost use Rattle.std.specs.List.{find};
ghost use Rattle.std.specs.Option.{option_map};
ghost use Rattle.crs_exact.specs.Said.{sentence};
ghost use Rattle.crs_conversion.specs.Quantity.{is_unit_against, is_against, quantity_what, quantity};

use crate::kinds::{is_angle_name, is_length_name, is_scale_name};
use crs_exact::{Finding, parameters_of};
use crs_part::{Parameter, Single, Unit};

/// The first parameter whose unit measures something else than its name tells.
pub fn odd_quantity(crs: &Single) -> Option<Finding<'_>>
    ensures { option_map sentence result ≡ quantity crs.now }
{
    match parameter_against(parameters_of(crs)) {
        Some(parameter) => Some(Finding::of_parameter(
            parameter,
            quantity_what(parameter.name.as_bytes()),
        )),
        None => None,
    }
}

fn parameter_against(parameters: &[Parameter]) -> Option<&Parameter>
    ensures { option_map (λ p. p.now) result ≡ find is_against parameters.now }
{
    parameters
        .iter()
        .find(|p| is_unit_against(&p.unit, p.name.as_bytes()))
}

fn quantity_what(name: &[u8]) -> &'static [u8]
    ensures { result.now ≡ quantity_what name.now }
{
    if is_angle_name(name) {
        return b"by its name it is an angle";
    }
    if is_scale_name(name) {
        return b"by its name it is a ratio";
    }
    b"by its name it is a length"
}

fn is_unit_against(unit: &Option<Unit>, name: &[u8]) -> bool
    ensures { result ≡ is_unit_against unit.now name.now }
{
    match unit {
        Some(Unit::Length(_)) => is_angle_name(name) || is_scale_name(name),
        Some(Unit::Angle(_)) => is_length_name(name) || is_scale_name(name),
        Some(Unit::Scale(_)) => is_angle_name(name) || is_length_name(name),
        Some(Unit::Generic(_)) => false,
        None => false,
    }
}
