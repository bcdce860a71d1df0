//! Latitudes beyond 90 degrees, and other angles beyond 360.

ghost use Rattle.std.specs.Prelude.{◌≡◌};
ghost use Rattle.std.specs.List.{find};
ghost use Rattle.std.specs.Option.{option_map};
ghost use Rattle.crs_exact.specs.Said.{sentence};
ghost use Rattle.crs_conversion.specs.Angle.{is_angle_beyond, is_angle_odd, angle_what, angle};

use crate::kinds::{is_latitude_name, is_longitude_name, is_turn_name};
use crs_exact::{Finding, angle_in, is_packed_unit, is_product_beyond, parameters_of};
use crs_number::Decimal;
use crs_part::{Parameter, Single};

/// The first angle of a conversion that is a latitude beyond 90 degrees, or another angle beyond 360.
pub fn odd_angle(crs: &Single) -> Option<Finding<'_>>
    ensures { option_map sentence result ≡ angle crs.now }
{
    match angle_beyond(parameters_of(crs)) {
        Some(parameter) => Some(Finding::of_parameter(
            parameter,
            angle_what(parameter.name.as_bytes()),
        )),
        None => None,
    }
}

fn angle_beyond(parameters: &[Parameter]) -> Option<&Parameter>
    ensures { option_map (λ p. p.now) result ≡ find is_angle_odd parameters.now }
{
    parameters.iter().find(|p| is_angle_odd(p))
}

fn angle_what(name: &[u8]) -> &'static [u8]
    ensures { result.now ≡ angle_what name.now }
{
    if is_latitude_name(name) {
        return b"a latitude ends at 90 degrees";
    }
    b"an angle ends at 360 degrees"
}

fn is_angle_odd(parameter: &Parameter) -> bool
    ensures { result ≡ is_angle_odd parameter.now }
{
    match angle_in(&parameter.unit) {
        Some(unit) => {
            !is_packed_unit(unit.name.as_bytes())
                && is_angle_beyond(parameter.value, unit.factor, parameter.name.as_bytes())
        }
        None => false,
    }
}

fn is_angle_beyond(value: Decimal, factor: Decimal, name: &[u8]) -> bool
    ensures { result ≡ is_angle_beyond value factor name.now }
{
    (is_latitude_name(name)
        && is_product_beyond(value, factor, 15_707_963_283_656_929_932_794_897, 25))
        || ((is_longitude_name(name) || is_turn_name(name))
            && is_product_beyond(value, factor, 62_831_853_134_627_719_731_179_588, 25))
}
