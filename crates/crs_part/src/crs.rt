//! Coordinate reference systems, one field a slot.

ghost use Rattle.std.specs.Prelude.{◌≡◌, ◌↔◌, IsTrue};

use crate::boxed::Boxed;
use crate::conversions::Conversion;
use crate::copies::{TryClone, five, four, two};
use crate::datums::{GeodeticFrame, PrimeMeridian, VerticalFrame};
use crate::identifiers::{Ident, Named};
use crate::many::{Many, NonEmpty};
use crate::same::Same;
use crate::systems::{Axis, CoordSystem};
use crate::text::Text;
use crate::units::{AngleUnit, Unit};
use crate::usages::Usage;
use std::alloc::{AllocError, Global};

/// Whether a geodetic reference system is written as `GEODCRS` or as `GEOGCRS`.
#[derive(Clone, Copy, Debug, PartialEq, Eq)]
pub enum GeodeticKind {
    Geodetic,
    Geographic,
}

/// The geodetic reference system on which a projected one is based.
#[derive(Drop)]
pub struct BaseCrs {
    pub kind: GeodeticKind,
    pub name: Text,
    pub datum: GeodeticFrame,
    pub prime_meridian: Option<PrimeMeridian>,
    pub unit: Option<AngleUnit>,
    pub ids: Many<Ident>,
}

/// A geodetic or geographic reference system.
#[derive(Drop)]
pub struct Geodetic {
    pub kind: GeodeticKind,
    pub name: Text,
    pub datum: GeodeticFrame,
    pub prime_meridian: Option<PrimeMeridian>,
    pub system: CoordSystem,
    pub axes: NonEmpty<Axis>,
    pub unit: Option<Unit>,
    pub usages: Many<Usage>,
    pub ids: Many<Ident>,
    pub remark: Option<Text>,
}

/// A projected reference system.
#[derive(Drop)]
pub struct Projected {
    pub name: Text,
    pub base: BaseCrs,
    pub conversion: Conversion,
    pub system: CoordSystem,
    pub axes: NonEmpty<Axis>,
    pub unit: Option<Unit>,
    pub usages: Many<Usage>,
    pub ids: Many<Ident>,
    pub remark: Option<Text>,
}

/// A vertical reference system.
#[derive(Drop)]
pub struct Vertical {
    pub name: Text,
    pub datum: VerticalFrame,
    pub system: CoordSystem,
    pub axes: NonEmpty<Axis>,
    pub unit: Option<Unit>,
    pub geoid_models: Many<Named>,
    pub usages: Many<Usage>,
    pub ids: Many<Ident>,
    pub remark: Option<Text>,
}

/// A reference system of one part.
#[derive(Drop)]
pub enum Single {
    Geodetic(Geodetic),
    Projected(Projected),
    Vertical(Vertical),
}

/// A reference system of two parts.
#[derive(Drop)]
pub struct Compound {
    pub name: Text,
    pub first: Single,
    pub second: Single,
    pub usages: Many<Usage>,
    pub ids: Many<Ident>,
    pub remark: Option<Text>,
}

/// The parts of a coordinate reference system.
#[derive(Drop)]
pub enum CrsParts {
    Single(Single),
    Compound(Boxed<Compound>),
}

impl TryClone for BaseCrs {
    fn try_clone(&self, alloc: Global) -> Result<BaseCrs, AllocError> {
        let (name, datum, prime_meridian, unit, ids) = five(
            alloc,
            &self.name,
            &self.datum,
            &self.prime_meridian,
            &self.unit,
            &self.ids,
        )?;
        Ok(BaseCrs {
            kind: self.kind,
            name,
            datum,
            prime_meridian,
            unit,
            ids,
        })
    }
}

impl Same for BaseCrs {
    fn same(&self, other: &BaseCrs) -> bool {
        self.kind == other.kind
            && self.name.same(&other.name)
            && self.datum.same(&other.datum)
            && self.prime_meridian.same(&other.prime_meridian)
            && self.unit.same(&other.unit)
            && self.ids.same(&other.ids)
    }
}

impl TryClone for Geodetic {
    fn try_clone(&self, alloc: Global) -> Result<Geodetic, AllocError> {
        let (name, usages, ids, remark) = four(
            alloc,
            &self.name,
            &self.usages,
            &self.ids,
            &self.remark,
        )?;
        let (datum, prime_meridian, system, axes, unit) = five(
            alloc,
            &self.datum,
            &self.prime_meridian,
            &self.system,
            &self.axes,
            &self.unit,
        )?;
        Ok(Geodetic {
            kind: self.kind,
            name,
            datum,
            prime_meridian,
            system,
            axes,
            unit,
            usages,
            ids,
            remark,
        })
    }
}

impl Same for Geodetic {
    fn same(&self, other: &Geodetic) -> bool {
        self.kind == other.kind
            && self.name.same(&other.name)
            && self.datum.same(&other.datum)
            && self.prime_meridian.same(&other.prime_meridian)
            && self.system.same(&other.system)
            && self.axes.same(&other.axes)
            && self.unit.same(&other.unit)
            && self.usages.same(&other.usages)
            && self.ids.same(&other.ids)
            && self.remark.same(&other.remark)
    }
}

impl TryClone for Projected {
    fn try_clone(&self, alloc: Global) -> Result<Projected, AllocError> {
        let (name, usages, ids, remark) = four(
            alloc,
            &self.name,
            &self.usages,
            &self.ids,
            &self.remark,
        )?;
        let (base, conversion, system, axes, unit) = five(
            alloc,
            &self.base,
            &self.conversion,
            &self.system,
            &self.axes,
            &self.unit,
        )?;
        Ok(Projected {
            name,
            base,
            conversion,
            system,
            axes,
            unit,
            usages,
            ids,
            remark,
        })
    }
}

impl Same for Projected {
    fn same(&self, other: &Projected) -> bool {
        self.name.same(&other.name)
            && self.base.same(&other.base)
            && self.conversion.same(&other.conversion)
            && self.system.same(&other.system)
            && self.axes.same(&other.axes)
            && self.unit.same(&other.unit)
            && self.usages.same(&other.usages)
            && self.ids.same(&other.ids)
            && self.remark.same(&other.remark)
    }
}

impl TryClone for Vertical {
    fn try_clone(&self, alloc: Global) -> Result<Vertical, AllocError> {
        let (name, usages, ids, remark) = four(
            alloc,
            &self.name,
            &self.usages,
            &self.ids,
            &self.remark,
        )?;
        let (datum, system, axes, unit, geoid_models) = five(
            alloc,
            &self.datum,
            &self.system,
            &self.axes,
            &self.unit,
            &self.geoid_models,
        )?;
        Ok(Vertical {
            name,
            datum,
            system,
            axes,
            unit,
            geoid_models,
            usages,
            ids,
            remark,
        })
    }
}

impl Same for Vertical {
    fn same(&self, other: &Vertical) -> bool {
        self.name.same(&other.name)
            && self.datum.same(&other.datum)
            && self.system.same(&other.system)
            && self.axes.same(&other.axes)
            && self.unit.same(&other.unit)
            && self.geoid_models.same(&other.geoid_models)
            && self.usages.same(&other.usages)
            && self.ids.same(&other.ids)
            && self.remark.same(&other.remark)
    }
}

impl TryClone for Single {
    fn try_clone(&self, alloc: Global) -> Result<Single, AllocError> {
        match self {
            Single::Geodetic(geodetic) => Ok(Single::Geodetic(geodetic.try_clone(alloc)?)),
            Single::Projected(projected) => Ok(Single::Projected(projected.try_clone(alloc)?)),
            Single::Vertical(vertical) => Ok(Single::Vertical(vertical.try_clone(alloc)?)),
        }
    }
}

impl Same for Single {
    fn same(&self, other: &Single) -> bool {
        match (self, other) {
            (Single::Geodetic(a), Single::Geodetic(b)) => a.same(b),
            (Single::Projected(a), Single::Projected(b)) => a.same(b),
            (Single::Vertical(a), Single::Vertical(b)) => a.same(b),
            (_, _) => false,
        }
    }
}

impl TryClone for Compound {
    fn try_clone(&self, alloc: Global) -> Result<Compound, AllocError> {
        let (name, usages, ids, remark) = four(
            alloc,
            &self.name,
            &self.usages,
            &self.ids,
            &self.remark,
        )?;
        let (first, second) = two(alloc, &self.first, &self.second)?;
        Ok(Compound {
            name,
            first,
            second,
            usages,
            ids,
            remark,
        })
    }
}

impl Same for Compound {
    fn same(&self, other: &Compound) -> bool {
        self.name.same(&other.name)
            && self.first.same(&other.first)
            && self.second.same(&other.second)
            && self.usages.same(&other.usages)
            && self.ids.same(&other.ids)
            && self.remark.same(&other.remark)
    }
}

impl TryClone for CrsParts {
    fn try_clone(&self, alloc: Global) -> Result<CrsParts, AllocError> {
        match self {
            CrsParts::Single(single) => Ok(CrsParts::Single(single.try_clone(alloc)?)),
            CrsParts::Compound(compound) => Ok(CrsParts::Compound(compound.try_clone(alloc)?)),
        }
    }
}

impl Same for CrsParts {
    fn same(&self, other: &CrsParts) -> bool {
        match (self, other) {
            (CrsParts::Single(a), CrsParts::Single(b)) => a.same(b),
            (CrsParts::Compound(a), CrsParts::Compound(b)) => a.same(b),
            (_, _) => false,
        }
    }
}

impl PartialEq for CrsParts {
    ghost use Rattle.crs_part.specs.Equality.{equal, equal_is_partial_equivalence};
    ghost use Rattle.crs_part.specs.contracts.crs.CrsParts.{the_row};

    ghost eq = { equal the_row.coded };

    ghost laws = { equal_is_partial_equivalence the_row.coded };

    fn eq(&self, other: &CrsParts) -> bool
        ensures value { result ≡ equal the_row.coded self.now other.now }
        ensures exact { IsTrue result ↔ (self.now ≡ other.now) }
    {
        self.same(other)
    }
}

impl Eq for CrsParts {
    ghost use Rattle.crs_part.specs.Equality.{equal_is_equivalence};
    ghost use Rattle.crs_part.specs.contracts.crs.CrsParts.{the_row};

    ghost laws = { equal_is_equivalence the_row.coded };
}
