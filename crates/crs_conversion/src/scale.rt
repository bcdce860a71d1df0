//! Scale factors that are not near 1.

ghost use Rattle.std.specs.Prelude.{◌≡◌};
ghost use Rattle.std.specs.List.{find};
ghost use Rattle.std.specs.Option.{option_map};
ghost use Rattle.crs_exact.specs.Said.{sentence};
ghost use Rattle.crs_conversion.specs.Scale.{is_off, is_product_off, is_scale_off, is_scale_odd, scale};

use crate::kinds::is_scale_name;
use crs_exact::{Finding, is_below, is_beyond, is_product_below, is_product_beyond, parameters_of};
use crs_number::Decimal;
use crs_part::{Parameter, Single, Unit};

/// The first scale factor of a system that is not within 0.9 and 1.1.
pub fn odd_scale(crs: &Single) -> Option<Finding<'_>>
    ensures { option_map sentence result ≡ scale crs.now }
{
    match scale_off(parameters_of(crs)) {
        Some(parameter) => {
            Some(Finding::of_parameter(parameter, b"map grids have a scale near 1"))
        }
        None => None,
    }
}

fn scale_off(parameters: &[Parameter]) -> Option<&Parameter>
    ensures { option_map (λ p. p.now) result ≡ find is_scale_odd parameters.now }
{
    parameters.iter().find(|p| is_scale_odd(p))
}

fn is_scale_odd(parameter: &Parameter) -> bool
    ensures { result ≡ is_scale_odd parameter.now }
{
    is_scale_name(parameter.name.as_bytes()) && is_scale_off(parameter.value, &parameter.unit)
}

fn is_scale_off(value: Decimal, unit: &Option<Unit>) -> bool
    ensures { result ≡ is_scale_off value unit.now }
{
    match unit {
        Some(Unit::Scale(unit)) => is_product_off(value, unit.factor),
        Some(Unit::Length(_)) => is_off(value),
        Some(Unit::Angle(_)) => is_off(value),
        Some(Unit::Generic(_)) => is_off(value),
        None => is_off(value),
    }
}

fn is_off(value: Decimal) -> bool
    ensures { result ≡ is_off value }
{
    value.coefficient() < 0 || is_below(value, 9, 1) || is_beyond(value, 11, 1)
}

fn is_product_off(value: Decimal, factor: Decimal) -> bool
    ensures { result ≡ is_product_off value factor }
{
    value.coefficient() < 0
        || is_product_below(value, factor, 9, 1)
        || is_product_beyond(value, factor, 11, 1)
}
