//! Parameters that are not those of a zone.

ghost use Rattle.std.specs.Prelude.{◌≡◌, ◌≤◌, ◌<◌, ◌^◌, ◌*◌, ◌+◌, ◌-◌, ◌||◌};
ghost use Rattle.crs_meridians.specs.Zone.{is_length, is_easting_from, is_easting, is_northing, is_utm, is_latitude, is_scale, is_scale_of, is_utm_off, is_other_off, is_longitude_off, is_off_in, is_parameter_off};

use crate::grid::{Grid, Zone};
use crate::meridian::is_central;
use crs_exact::{
    either, is_below, is_beyond, is_elsewhere, is_named, is_product_below, is_product_beyond,
    own_or_base, unit_of,
};
use crs_number::Decimal;
use crs_part::{AngleUnit, Parameter, Unit};

/// Whether the parameter is not that of the zone.
pub(crate) fn is_parameter_off(
    zone: Zone,
    base: &Option<AngleUnit>,
    axis: &Option<Unit>,
    parameter: &Parameter,
) -> bool
    ensures { result ≡ is_parameter_off zone base.now axis.now parameter.now }
{
    zone.number <= 99 && is_off_in(zone, base, axis, parameter)
}

fn is_off_in(
    zone: Zone,
    base: &Option<AngleUnit>,
    axis: &Option<Unit>,
    parameter: &Parameter,
) -> bool
    requires { zone.number ≤ 99 }
    ensures { result ≡ is_off_in zone base.now axis.now parameter.now }
{
    (is_central(parameter.name.as_bytes()) && is_longitude_off(zone, base, parameter))
        || (is_utm(zone.grid) && is_utm_off(zone, axis, parameter))
        || is_other_off(zone, axis, parameter)
}

fn is_longitude_off(zone: Zone, base: &Option<AngleUnit>, parameter: &Parameter) -> bool
    requires { zone.number ≤ 99 }
    ensures { result ≡ is_longitude_off zone base.now parameter.now }
{
    is_elsewhere(
        parameter.value,
        own_or_base(&parameter.unit, base),
        zone.grid.is_west_in(zone.number),
        u128::from(zone.grid.degrees_in(zone.number)) * 1_000_000,
        1,
    )
}

fn is_utm_off(zone: Zone, axis: &Option<Unit>, parameter: &Parameter) -> bool
    ensures { result ≡ is_utm_off zone axis.now parameter.now }
{
    let name = parameter.name.as_bytes();
    let value = parameter.value;
    (is_latitude(name) && value.coefficient() != 0)
        || (is_named(name, b"false northing")
            && !is_northing(zone.grid, value, either(&parameter.unit, axis)))
}

// The scale and the false easting of the zone.
fn is_other_off(zone: Zone, axis: &Option<Unit>, parameter: &Parameter) -> bool
    requires { zone.number ≤ 99 }
    ensures { result ≡ is_other_off zone axis.now parameter.now }
{
    let name = parameter.name.as_bytes();
    let value = parameter.value;
    (is_scale(name) && !is_scale_of(zone.grid, value))
        || (is_named(name, b"false easting")
            && !is_easting(zone.grid, value, either(&parameter.unit, axis), zone.number))
}

/// Whether the name is that of a latitude of origin.
pub(crate) fn is_latitude(name: &[u8]) -> bool
    ensures { result ≡ is_latitude name.now }
{
    is_named(name, b"latitude of natural origin") || is_named(name, b"latitude of origin")
}

/// Whether the name is that of a scale factor.
pub(crate) fn is_scale(name: &[u8]) -> bool
    ensures { result ≡ is_scale name.now }
{
    is_named(name, b"scale factor at natural origin") || is_named(name, b"scale factor")
}

fn is_scale_of(grid: Grid, value: Decimal) -> bool
    ensures { result ≡ is_scale_of grid value }
{
    if is_utm(grid) {
        return value.coefficient() == 9_996 && value.exponent() == -4;
    }
    value.coefficient() == 1 && value.exponent() == 0
}

/// Whether the grid is UTM.
pub(crate) fn is_utm(grid: Grid) -> bool
    ensures { result ≡ is_utm grid }
{
    match grid {
        Grid::UtmNorth => true,
        Grid::UtmSouth => true,
        Grid::Utm => true,
        Grid::Three => false,
        Grid::Six => false,
    }
}

// Whether the length is so many metres, to a centimetre.
fn is_length(value: Decimal, unit: &Option<Unit>, metres: u32) -> bool
    ensures { result ≡ is_length value unit.now metres }
{
    let low = (u128::from(metres) * 100).saturating_sub(1);
    let high = u128::from(metres) * 100 + 1;
    match unit {
        Some(unit) => {
            (metres == 0 || !(value.coefficient() < 0))
                && !is_product_below(value, unit_of(unit).factor, low, 2)
                && !is_product_beyond(value, unit_of(unit).factor, high, 2)
        }
        None => {
            (metres == 0 || !(value.coefficient() < 0))
                && !is_below(value, low, 2)
                && !is_beyond(value, high, 2)
        }
    }
}

// 500 km, and in zones of Gauss-Kruger also 250 km.
fn is_easting(grid: Grid, value: Decimal, unit: &Option<Unit>, number: u32) -> bool
    requires { number ≤ 99 }
    ensures { result ≡ is_easting grid value unit.now number }
{
    is_easting_from(value, unit, number, 500_000)
        || (!is_utm(grid) && is_easting_from(value, unit, number, 250_000))
}

// So many metres, with the number of the zone or its last digit in front or not.
fn is_easting_from(value: Decimal, unit: &Option<Unit>, number: u32, metres: u32) -> bool
    requires number { number ≤ 99 }
    requires metres { metres ≤ 500000 }
    ensures { result ≡ is_easting_from value unit.now number metres }
{
    is_length(value, unit, metres)
        || is_length(value, unit, number * 1_000_000 + metres)
        || is_length(value, unit, number % 10 * 1_000_000 + metres)
}

fn is_northing(grid: Grid, value: Decimal, unit: &Option<Unit>) -> bool
    ensures { result ≡ is_northing grid value unit.now }
{
    match grid {
        Grid::UtmNorth => is_length(value, unit, 0),
        Grid::UtmSouth => is_length(value, unit, 10_000_000),
        Grid::Utm => is_length(value, unit, 0) || is_length(value, unit, 10_000_000),
        Grid::Three => true,
        Grid::Six => true,
    }
}
