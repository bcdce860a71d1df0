//! Projected systems whose conversion is not that of the zone that their name says.

ghost use Rattle.std.specs.Prelude.{◌≡◌};
ghost use Rattle.std.specs.List.{find};
ghost use Rattle.std.specs.Option.{option_map};
ghost use Rattle.crs_exact.specs.Said.{sentence};
ghost use Rattle.crs_meridians.specs.Zone.{is_parameter_off, zone_in, off_from, off_in, zone};

use crate::grid::Zone;
use crate::meridian::is_at_greenwich;
use crate::off::is_parameter_off;
use crate::told::off_said;
use crate::zone_name::{width_said, zone_said};
use crs_exact::{Finding, either, projected_in};
use crs_part::{AngleUnit, Parameter, Projected, Single, Unit};

/// The first parameter of a system that is not that of the zone in its name, or else in the name of its conversion, with its value and
/// that of the zone.
pub fn odd_zone(crs: &Single) -> Option<Finding<'_>>
    ensures { option_map sentence result ≡ zone crs.now }
{
    match projected_in(crs) {
        Some(crs) => off_in(crs),
        None => None,
    }
}

fn off_in(crs: &Projected) -> Option<Finding<'_>>
    ensures { option_map sentence result ≡ off_in crs.now }
{
    if !is_at_greenwich(&crs.base.prime_meridian) {
        return None;
    }
    match zone_in(crs) {
        Some(zone) => off_from(
            zone,
            &crs.base.unit,
            either(&crs.axes.first.unit, &crs.unit),
            crs.conversion.parameters.as_slice(),
        ),
        None => None,
    }
}

fn zone_in(crs: &Projected) -> Option<Zone>
    ensures { result ≡ zone_in crs.now }
{
    if let Some(zone) = width_said(crs.name.as_bytes()) {
        return Some(zone);
    }
    if let Some(zone) = zone_said(crs.conversion.name.as_bytes()) {
        return Some(zone);
    }
    zone_said(crs.name.as_bytes())
}

fn off_from<'a>(
    zone: Zone,
    base: &Option<AngleUnit>,
    axis: &Option<Unit>,
    parameters: &'a [Parameter],
) -> Option<Finding<'a>>
    ensures { option_map sentence result ≡ off_from base.now axis.now parameters.now zone }
{
    match first_off(zone, base, axis, parameters) {
        Some(parameter) => off_said(zone, parameter),
        None => None,
    }
}

fn first_off<'a>(
    zone: Zone,
    base: &Option<AngleUnit>,
    axis: &Option<Unit>,
    parameters: &'a [Parameter],
) -> Option<&'a Parameter>
    ensures { option_map (λ p. p.now) result ≡ find (is_parameter_off zone base.now axis.now) parameters.now }
{
    parameters
        .iter()
        .find(|p| is_parameter_off(zone, base, axis, p))
}
