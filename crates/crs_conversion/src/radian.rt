//! Radians that are given as degrees.

ghost use Rattle.std.specs.Prelude.{◌≡◌, ◌<◌, ◌^◌, ◌||◌, IfSome};
ghost use Rattle.std.specs.List.{find};
ghost use Rattle.std.specs.Option.{option_map};
ghost use Rattle.crs_exact.specs.Said.{sentence};
ghost use Rattle.crs_conversion.specs.Radian.{is_degree, is_in_degrees, is_round, is_radian, radians, radians_said, minus_said, is_parameter_odd, first_in, prime_radian, radian};

use crate::kinds::is_angle_name;
use crate::round::{fine, is_whole_minutes, is_whole_seconds, minutes};
use crs_exact::{
    END, Finding, Piece, angles_of, base_unit, is_below, is_beyond, is_packed_unit, own_or_base,
    places_of, prime_in, projected_in, unit_or,
};
use crs_number::Decimal;
use crs_part::{AngleUnit, Parameter, Projected, Single, UnitDefinition};

/// The prime meridian of the system or the first angle of its conversion, in degrees, with at least 6 decimals and at most 6.3, that is no
/// whole number of arc-seconds, and would be a whole number of arc-minutes, were it radians.
pub fn odd_radian(crs: &Single) -> Option<Finding<'_>>
    ensures { option_map sentence result ≡ radian crs.now }
{
    if let Some(found) = prime_radian(crs) {
        return Some(found);
    }
    match projected_in(crs) {
        Some(crs) => first_in(crs),
        None => None,
    }
}

fn prime_radian(crs: &Single) -> Option<Finding<'_>>
    ensures { option_map sentence result ≡ prime_radian crs.now }
{
    match prime_in(crs) {
        Some(meridian) => {
            if !is_in_degrees(unit_or(base_unit(&meridian.unit), angles_of(crs))) {
                return None;
            }
            radians(meridian.name.as_bytes(), &meridian.longitude)
        }
        None => None,
    }
}

fn first_in(crs: &Projected) -> Option<Finding<'_>>
    ensures { option_map sentence result ≡ first_in crs.now }
{
    match odd_parameter(&crs.base.unit, crs.conversion.parameters.as_slice()) {
        Some(parameter) => radians(parameter.name.as_bytes(), &parameter.value),
        None => None,
    }
}

fn odd_parameter<'a>(base: &Option<AngleUnit>, parameters: &'a [Parameter]) -> Option<&'a Parameter>
    ensures { option_map (λ p. p.now) result ≡ find (is_parameter_odd base.now) parameters.now }
{
    parameters.iter().find(|p| is_parameter_odd(base, p))
}

fn is_parameter_odd(base: &Option<AngleUnit>, parameter: &Parameter) -> bool
    ensures { result ≡ is_parameter_odd base.now parameter.now }
{
    is_angle_name(parameter.name.as_bytes())
        && is_in_degrees(own_or_base(&parameter.unit, base))
        && is_radian(parameter.value)
}

fn is_in_degrees(unit: Option<&UnitDefinition>) -> bool
    ensures { result ≡ is_in_degrees (option_map (λ u. u.now) unit.entry) }
{
    match unit {
        Some(unit) => is_degree(unit),
        None => true,
    }
}

fn is_degree(unit: &UnitDefinition) -> bool
    ensures { result ≡ is_degree unit.now }
{
    !is_packed_unit(unit.name.as_bytes())
        && !is_below(unit.factor, 174_532_750_666_507_800_567, 22)
        && !is_beyond(unit.factor, 174_533_099_732_358_199_433, 22)
}

fn is_radian(value: Decimal) -> bool
    ensures { result ≡ is_radian value }
{
    places_of(value) <= 34 && !is_beyond(value, 63, 1) && is_round(fine(value))
}

fn is_round(size: Option<u128>) -> bool
    requires { IfSome size (λ n. n < 10 ^ 34) }
    ensures { result ≡ is_round size }
{
    match size {
        Some(size) => !is_whole_seconds(size) && is_whole_minutes(size),
        None => false,
    }
}

fn radians<'a>(name: &'a [u8], value: &'a Decimal) -> Option<Finding<'a>>
    ensures { option_map sentence result ≡ radians name.now value.now }
{
    if !is_radian(*value) {
        return None;
    }
    let Some(size) = fine(*value) else {
        return None;
    };
    Some(radians_said(name, value, size))
}

fn radians_said<'a>(name: &'a [u8], value: &'a Decimal, size: u128) -> Finding<'a>
    requires { size < 10 ^ 34 }
    ensures { sentence result ≡ radians_said name.now value.now size }
{
    let whole = minutes(size);
    Finding::of_words([
        Piece::Text(b"\""),
        Piece::Text(name),
        Piece::Text(b"\" is "),
        Piece::Number(value),
        Piece::Text(b" degrees, and as radians it would be "),
        Piece::Text(minus_said(value)),
        Piece::Count(whole / 60),
        Piece::Text(b" degrees "),
        Piece::Count(whole % 60),
        Piece::Text(b" minutes: radians given as degrees?"),
        END,
        END,
    ])
}

fn minus_said(value: &Decimal) -> &'static [u8]
    ensures { result.now ≡ minus_said value.now }
{
    if value.coefficient() < 0 {
        return b"-";
    }
    b""
}
