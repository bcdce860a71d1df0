//! Zones of 3 or 6 degrees, and their central meridians.

ghost use Rattle.std.specs.Prelude.{◌≡◌, ◌≤◌};
ghost use Rattle.crs_meridians.specs.ZoneName.{zone_of, is_west_in, utm_degrees, three_degrees, six_degrees, degrees_in};

/// A way to number zones.
#[derive(Clone, Copy)]
pub(crate) enum Grid {
    UtmNorth,
    UtmSouth,
    /// UTM, on either side of the equator.
    Utm,
    /// Zones of 3 degrees.
    Three,
    /// Zones of 6 degrees that begin at Greenwich.
    Six,
}

/// A zone, by its number.
#[derive(Clone, Copy)]
pub(crate) struct Zone {
    pub(crate) grid: Grid,
    pub(crate) number: u32,
}

/// The zone of this number, if there are so many.
pub(crate) fn zone_of(grid: Grid, most: u32, number: u32) -> Option<Zone>
    ensures { result ≡ zone_of grid most number }
{
    if 1 <= number && number <= most {
        return Some(Zone { grid, number });
    }
    None
}

impl Grid {
    /// Whether the central meridian of the zone of this number is west of Greenwich.
    pub(crate) fn is_west_in(self, number: u32) -> bool
        ensures { result ≡ is_west_in self number }
    {
        match self {
            Grid::UtmNorth => number <= 30,
            Grid::UtmSouth => number <= 30,
            Grid::Utm => number <= 30,
            Grid::Three => 61 <= number,
            Grid::Six => 31 <= number,
        }
    }

    /// How many degrees it is from Greenwich.
    pub(crate) fn degrees_in(self, number: u32) -> u32
        requires { number ≤ 99 }
        ensures value { result ≡ degrees_in self number }
        ensures few { result ≤ 600 }
    {
        match self {
            Grid::UtmNorth => utm_degrees(number),
            Grid::UtmSouth => utm_degrees(number),
            Grid::Utm => utm_degrees(number),
            Grid::Three => three_degrees(number),
            Grid::Six => six_degrees(number),
        }
    }
}

fn utm_degrees(number: u32) -> u32
    requires { number ≤ 99 }
    ensures value { result ≡ utm_degrees number }
    ensures few { result ≤ 600 }
{
    if number <= 30 {
        return 183 - 6 * number;
    }
    6 * number - 183
}

fn three_degrees(number: u32) -> u32
    requires { number ≤ 99 }
    ensures value { result ≡ three_degrees number }
    ensures few { result ≤ 600 }
{
    if 61 <= number {
        return 360 - 3 * number;
    }
    3 * number
}

fn six_degrees(number: u32) -> u32
    requires { number ≤ 99 }
    ensures value { result ≡ six_degrees number }
    ensures few { result ≤ 600 }
{
    if number <= 30 {
        return (6 * number).saturating_sub(3);
    }
    363u32.saturating_sub(6 * number)
}
