//! Angles in packed degrees, minutes and seconds.

ghost use Rattle.std.specs.Prelude.{◌≡◌};
ghost use Rattle.std.specs.List.{list_any, find};
ghost use Rattle.std.specs.Option.{option_map};
ghost use Rattle.crs_part.specs.Slots.{items_of};
ghost use Rattle.crs_exact.specs.Said.{sentence};
ghost use Rattle.crs_conversion.specs.Packed.{is_packed, is_parameter_packed, is_angle_packed, has_prime_packed, is_axis_packed, elsewhere, packed};

use crs_exact::{Finding, angle_of, is_packed_unit, parameters_of, prime_in, unit_of};
use crs_number::Decimal;
use crs_part::{AngleUnit, Axis, NonEmpty, Parameter, Single, UnitDefinition};

/// The first parameter, the prime meridian or the meridian of an axis, not 0, that has a unit whose name begins with `sexagesimal`.
pub fn odd_packed(crs: &Single) -> Option<Finding<'_>>
    ensures { option_map sentence result ≡ packed crs.now }
{
    match packed_parameter(parameters_of(crs)) {
        Some(parameter) => Some(Finding::of_parameter(
            parameter,
            b"packed degrees, minutes and seconds, which no factor turns into an angle: give it in degrees",
        )),
        None => packed_elsewhere(crs),
    }
}

fn packed_elsewhere(crs: &Single) -> Option<Finding<'_>>
    ensures { option_map sentence result ≡ elsewhere crs.now }
{
    if has_prime_packed(crs) {
        return Some(Finding::of_text(
            b"the prime meridian is in packed degrees, minutes and seconds, which no factor turns into an angle: give it in degrees",
        ));
    }
    if some_axis_is_packed(crs.axes()) {
        return Some(Finding::of_text(
            b"the meridian of an axis is in packed degrees, minutes and seconds, which no factor turns into an angle: give it in degrees",
        ));
    }
    None
}

fn packed_parameter(parameters: &[Parameter]) -> Option<&Parameter>
    ensures { option_map (λ p. p.now) result ≡ find is_parameter_packed parameters.now }
{
    parameters.iter().find(|p| is_parameter_packed(p))
}

fn is_parameter_packed(parameter: &Parameter) -> bool
    ensures { result ≡ is_parameter_packed parameter.now }
{
    match &parameter.unit {
        Some(unit) => is_packed(parameter.value, unit_of(unit)),
        None => false,
    }
}

fn some_axis_is_packed(axes: &NonEmpty<Axis>) -> bool
    ensures { result ≡ list_any is_axis_packed (items_of axes.now) }
{
    is_axis_packed(&axes.first) || some_other_is_packed(axes.others.as_slice())
}

fn some_other_is_packed(axes: &[Axis]) -> bool
    ensures { result ≡ list_any is_axis_packed axes.now }
{
    axes.iter().any(is_axis_packed)
}

fn is_axis_packed(axis: &Axis) -> bool
    ensures { result ≡ is_axis_packed axis.now }
{
    match &axis.meridian {
        Some(meridian) => is_packed(meridian.longitude, angle_of(&meridian.unit)),
        None => false,
    }
}

fn has_prime_packed(crs: &Single) -> bool
    ensures { result ≡ has_prime_packed crs.now }
{
    match prime_in(crs) {
        Some(meridian) => is_angle_packed(meridian.longitude, &meridian.unit),
        None => false,
    }
}

fn is_angle_packed(value: Decimal, unit: &Option<AngleUnit>) -> bool
    ensures { result ≡ is_angle_packed value unit.now }
{
    match unit {
        Some(unit) => is_packed(value, angle_of(unit)),
        None => false,
    }
}

fn is_packed(value: Decimal, unit: &UnitDefinition) -> bool
    ensures { result ≡ is_packed value unit.now }
{
    value.coefficient() != 0 && is_packed_unit(unit.name.as_bytes())
}
