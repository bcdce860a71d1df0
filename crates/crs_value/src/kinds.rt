//! The parts of conditions that are about kinds of systems and units.

ghost use Rattle.std.specs.Prelude.{◌≡◌};
ghost use Rattle.crs_value.specs.Conditions.{is_two_or_three, may_be_geographic, may_be_geodetic, may_be_of, may_be_projected, may_be_vertical, is_ellipsoidal_plane, is_cartesian_plane, takes_length, takes_angle, takes_unit, is_north_or_south};

use crs_part::{Direction, GeodeticKind, SystemKind};

/// Whether a geodetic or geographic reference system may have a coordinate system of this kind and dimension.
pub fn may_be_of(kind: GeodeticKind, system: SystemKind, dimension: u32) -> bool
    ensures { result ≡ may_be_of kind system dimension }
{
    match kind {
        GeodeticKind::Geodetic => may_be_geodetic(system, dimension),
        GeodeticKind::Geographic => may_be_geographic(system, dimension),
    }
}

fn may_be_geodetic(system: SystemKind, dimension: u32) -> bool
    ensures { result ≡ may_be_geodetic system dimension }
{
    match system {
        SystemKind::Ellipsoidal | SystemKind::Spherical => is_two_or_three(dimension),
        SystemKind::Cartesian => dimension == 3,
        SystemKind::Vertical => false,
    }
}

fn may_be_geographic(system: SystemKind, dimension: u32) -> bool
    ensures { result ≡ may_be_geographic system dimension }
{
    match system {
        SystemKind::Ellipsoidal => is_two_or_three(dimension),
        SystemKind::Cartesian | SystemKind::Spherical | SystemKind::Vertical => false,
    }
}

fn is_two_or_three(dimension: u32) -> bool
    ensures { result ≡ is_two_or_three dimension }
{
    dimension == 2 || dimension == 3
}

/// Whether a projected reference system may have a coordinate system of this kind and dimension.
pub fn may_be_projected(system: SystemKind, dimension: u32) -> bool
    ensures { result ≡ may_be_projected system dimension }
{
    match system {
        SystemKind::Cartesian => is_two_or_three(dimension),
        SystemKind::Ellipsoidal | SystemKind::Spherical | SystemKind::Vertical => false,
    }
}

/// Whether a vertical reference system may have a coordinate system of this kind and dimension.
pub fn may_be_vertical(system: SystemKind, dimension: u32) -> bool
    ensures { result ≡ may_be_vertical system dimension }
{
    match system {
        SystemKind::Vertical => dimension == 1,
        SystemKind::Ellipsoidal | SystemKind::Cartesian | SystemKind::Spherical => false,
    }
}

/// Whether the coordinate system is ellipsoidal of two axes, as a geodetic component of a compound has it.
pub fn is_ellipsoidal_plane(system: SystemKind, dimension: u32) -> bool
    ensures { result ≡ is_ellipsoidal_plane system dimension }
{
    match system {
        SystemKind::Ellipsoidal => dimension == 2,
        SystemKind::Cartesian | SystemKind::Spherical | SystemKind::Vertical => false,
    }
}

/// Whether the coordinate system is Cartesian of two axes, as a projected component of a compound has it.
pub fn is_cartesian_plane(system: SystemKind, dimension: u32) -> bool
    ensures { result ≡ is_cartesian_plane system dimension }
{
    match system {
        SystemKind::Cartesian => dimension == 2,
        SystemKind::Ellipsoidal | SystemKind::Spherical | SystemKind::Vertical => false,
    }
}

/// The quantity that a unit measures, if its keyword names one.
#[derive(Clone, Copy, Debug, PartialEq, Eq)]
pub enum UnitKind {
    Length,
    Angle,
    Scale,
    Generic,
}

/// Whether the axis with this index, from 0, of such a coordinate system may have a unit of this kind.
pub fn takes_unit(system: SystemKind, index: usize, kind: UnitKind) -> bool
    ensures { result ≡ takes_unit system index kind }
{
    match kind {
        UnitKind::Length => takes_length(system, index),
        UnitKind::Angle => takes_angle(system, index),
        UnitKind::Scale => false,
        UnitKind::Generic => true,
    }
}

fn takes_length(system: SystemKind, index: usize) -> bool
    ensures { result ≡ takes_length system index }
{
    match system {
        SystemKind::Ellipsoidal => index >= 2,
        SystemKind::Cartesian | SystemKind::Spherical | SystemKind::Vertical => true,
    }
}

fn takes_angle(system: SystemKind, index: usize) -> bool
    ensures { result ≡ takes_angle system index }
{
    match system {
        SystemKind::Ellipsoidal => index < 2,
        SystemKind::Spherical => true,
        SystemKind::Cartesian | SystemKind::Vertical => false,
    }
}

/// Whether an axis of this direction may have a meridian.
pub fn is_north_or_south(direction: Direction) -> bool
    ensures { result ≡ is_north_or_south direction }
{
    match direction {
        Direction::North | Direction::South => true,
        _ => false,
    }
}
