//! What is said of a parameter that is not that of the zone: its value, and that of the zone.

ghost use Rattle.std.specs.Prelude.{◌≡◌, ◌≤◌};
ghost use Rattle.std.specs.Option.{option_map};
ghost use Rattle.crs_exact.specs.Said.{sentence, parameter_said};
ghost use Rattle.crs_meridians.specs.Zone.{minus_said, northing_of, constant_of, scale_wanted, easting_wanted, meridian_of, off_said};

use crate::grid::{Grid, Zone};
use crate::meridian::is_central;
use crate::off::{is_latitude, is_scale, is_utm};
use crs_exact::{END, Finding, Piece, is_named};
use crs_part::Parameter;

/// A parameter, and that of the zone.
pub(crate) fn off_said(zone: Zone, parameter: &Parameter) -> Option<Finding<'_>>
    ensures { option_map sentence result ≡ off_said zone parameter.now }
{
    if zone.number > 99 {
        return None;
    }
    let name = parameter.name.as_bytes();
    if is_central(name) {
        return Some(meridian_of(zone, parameter));
    }
    Some(Finding::of_parameter(parameter, constant_of(zone.grid, name)))
}

fn meridian_of(zone: Zone, parameter: &Parameter) -> Finding<'_>
    requires { zone.number ≤ 99 }
    ensures { sentence result ≡ parameter_said parameter.now (meridian_of zone) }
{
    let pieces = [
        Piece::Text(b"the central meridian of zone "),
        Piece::Count(u128::from(zone.number)),
        Piece::Text(b" is "),
        Piece::Text(minus_said(zone.grid.is_west_in(zone.number))),
        Piece::Count(u128::from(zone.grid.degrees_in(zone.number))),
        Piece::Text(b" degrees"),
        END,
        END,
        END,
        END,
        END,
        END,
    ];
    Finding {
        parameter: Some(parameter),
        pieces,
    }
}

fn minus_said<'a>(is_west: bool) -> &'a [u8]
    ensures { result.now ≡ minus_said is_west }
{
    if is_west {
        return b"-";
    }
    b""
}

fn constant_of(grid: Grid, name: &[u8]) -> &'static [u8]
    ensures { result.now ≡ constant_of grid name.now }
{
    if is_latitude(name) {
        return b"zones of UTM have 0 degrees";
    }
    if is_scale(name) {
        return scale_wanted(grid);
    }
    if is_named(name, b"false easting") {
        return easting_wanted(grid);
    }
    northing_of(grid)
}

fn scale_wanted(grid: Grid) -> &'static [u8]
    ensures { result.now ≡ scale_wanted grid }
{
    if is_utm(grid) {
        return b"zones of UTM have 0.9996";
    }
    b"zones of Gauss-Kruger have 1"
}

fn easting_wanted(grid: Grid) -> &'static [u8]
    ensures { result.now ≡ easting_wanted grid }
{
    if is_utm(grid) {
        return b"zones of UTM have 500000 metres, perhaps behind their number";
    }
    b"zones of Gauss-Kruger have 500000 or 250000 metres, perhaps behind their number"
}

fn northing_of(grid: Grid) -> &'static [u8]
    ensures { result.now ≡ northing_of grid }
{
    match grid {
        Grid::UtmNorth => b"zones of UTM in the north have 0 metres",
        Grid::UtmSouth => b"zones of UTM in the south have 10000000 metres",
        Grid::Utm => b"zones of UTM have 0 metres in the north and 10000000 metres in the south",
        Grid::Three => b"",
        Grid::Six => b"",
    }
}
