//! Coordinate systems and their axes.

ghost use Rattle.std.specs.Prelude.{◌<◌, ◌^◌};

use crate::copies::{TryClone, four};
use crate::identifiers::Ident;
use crate::many::Many;
use crate::same::Same;
use crate::text::Text;
use crate::units::{AngleUnit, Unit};
use crs_number::Decimal;
use std::alloc::{AllocError, Global};

/// The kinds of coordinate systems.
#[derive(Clone, Copy, Debug, PartialEq, Eq)]
pub enum SystemKind {
    Ellipsoidal,
    Cartesian,
    Spherical,
    Vertical,
}

/// A kind of coordinate system, and how many axes it has.
#[derive(Drop)]
pub struct CoordSystem {
    pub kind: SystemKind,
    pub dimension: u32,
    pub ids: Many<Ident>,
    pub ghost count: { dimension < 2 ^ 32 },
}

/// The direction of an axis.
#[derive(Clone, Copy, Debug, PartialEq, Eq)]
pub enum Direction {
    North,
    NorthNorthEast,
    NorthEast,
    EastNorthEast,
    East,
    EastSouthEast,
    SouthEast,
    SouthSouthEast,
    South,
    SouthSouthWest,
    SouthWest,
    WestSouthWest,
    West,
    WestNorthWest,
    NorthWest,
    NorthNorthWest,
    GeocentricX,
    GeocentricY,
    GeocentricZ,
    Up,
    Down,
}

/// The meridian along which an axis points north or south.
#[derive(Drop)]
pub struct Meridian {
    pub longitude: Decimal,
    pub unit: AngleUnit,
}

/// The number of an axis in its system, from 1.
#[derive(Clone, Copy, Debug, PartialEq, Eq)]
pub struct Order {
    pub position: u32,
    pub ghost count: { position < 2 ^ 32 },
}

/// An axis of a coordinate system.
#[derive(Drop)]
pub struct Axis {
    pub name: Text,
    pub direction: Direction,
    pub meridian: Option<Meridian>,
    pub order: Option<Order>,
    pub unit: Option<Unit>,
    pub ids: Many<Ident>,
}

impl TryClone for CoordSystem {
    fn try_clone(&self, alloc: Global) -> Result<CoordSystem, AllocError> {
        Ok(CoordSystem {
            kind: self.kind,
            dimension: self.dimension,
            ids: self.ids.try_clone(alloc)?,
        })
    }
}

impl Same for CoordSystem {
    fn same(&self, other: &CoordSystem) -> bool {
        self.kind == other.kind && self.dimension == other.dimension && self.ids.same(&other.ids)
    }
}

impl TryClone for Meridian {
    fn try_clone(&self, alloc: Global) -> Result<Meridian, AllocError> {
        Ok(Meridian {
            longitude: self.longitude,
            unit: self.unit.try_clone(alloc)?,
        })
    }
}

impl Same for Meridian {
    fn same(&self, other: &Meridian) -> bool {
        self.longitude.same(&other.longitude) && self.unit.same(&other.unit)
    }
}

impl TryClone for Axis {
    fn try_clone(&self, alloc: Global) -> Result<Axis, AllocError> {
        let (name, meridian, unit, ids) = four(
            alloc,
            &self.name,
            &self.meridian,
            &self.unit,
            &self.ids,
        )?;
        Ok(Axis {
            name,
            direction: self.direction,
            meridian,
            order: self.order,
            unit,
            ids,
        })
    }
}

impl Same for Axis {
    fn same(&self, other: &Axis) -> bool {
        self.name.same(&other.name)
            && self.direction == other.direction
            && self.meridian.same(&other.meridian)
            && self.order.same(&other.order)
            && self.unit.same(&other.unit)
            && self.ids.same(&other.ids)
    }
}

impl Same for Order {
    fn same(&self, other: &Order) -> bool {
        self.position == other.position
    }
}
