//! Units, an enum for each group of them.

use crate::copies::{TryClone, two};
use crate::identifiers::Ident;
use crate::many::Many;
use crate::same::Same;
use crate::text::Text;
use crs_number::Decimal;
use std::alloc::{AllocError, Global};

/// The definition of a unit: its name, and the factor that converts it to the base unit.
#[derive(Drop)]
pub struct UnitDefinition {
    pub name: Text,
    pub factor: Decimal,
    pub ids: Many<Ident>,
}

/// Any unit.
#[derive(Drop)]
pub enum Unit {
    Length(UnitDefinition),
    Angle(UnitDefinition),
    Scale(UnitDefinition),
    Generic(UnitDefinition),
}

/// A unit of length. `Generic` is the unit of no kind, `UNIT`.
#[derive(Drop)]
pub enum LengthUnit {
    Length(UnitDefinition),
    Generic(UnitDefinition),
}

/// A unit of angle. `Generic` is the unit of no kind, `UNIT`.
#[derive(Drop)]
pub enum AngleUnit {
    Angle(UnitDefinition),
    Generic(UnitDefinition),
}

impl TryClone for UnitDefinition {
    fn try_clone(&self, alloc: Global) -> Result<UnitDefinition, AllocError> {
        let (name, ids) = two(alloc, &self.name, &self.ids)?;
        Ok(UnitDefinition {
            name,
            factor: self.factor,
            ids,
        })
    }
}

impl Same for UnitDefinition {
    fn same(&self, other: &UnitDefinition) -> bool {
        self.name.same(&other.name) && self.factor.same(&other.factor) && self.ids.same(&other.ids)
    }
}

impl TryClone for Unit {
    fn try_clone(&self, alloc: Global) -> Result<Unit, AllocError> {
        match self {
            Unit::Length(unit) => Ok(Unit::Length(unit.try_clone(alloc)?)),
            Unit::Angle(unit) => Ok(Unit::Angle(unit.try_clone(alloc)?)),
            Unit::Scale(unit) => Ok(Unit::Scale(unit.try_clone(alloc)?)),
            Unit::Generic(unit) => Ok(Unit::Generic(unit.try_clone(alloc)?)),
        }
    }
}

impl Same for Unit {
    fn same(&self, other: &Unit) -> bool {
        match (self, other) {
            (Unit::Length(a), Unit::Length(b)) => a.same(b),
            (Unit::Angle(a), Unit::Angle(b)) => a.same(b),
            (Unit::Scale(a), Unit::Scale(b)) => a.same(b),
            (Unit::Generic(a), Unit::Generic(b)) => a.same(b),
            (_, _) => false,
        }
    }
}

impl TryClone for LengthUnit {
    fn try_clone(&self, alloc: Global) -> Result<LengthUnit, AllocError> {
        match self {
            LengthUnit::Length(unit) => Ok(LengthUnit::Length(unit.try_clone(alloc)?)),
            LengthUnit::Generic(unit) => Ok(LengthUnit::Generic(unit.try_clone(alloc)?)),
        }
    }
}

impl Same for LengthUnit {
    fn same(&self, other: &LengthUnit) -> bool {
        match (self, other) {
            (LengthUnit::Length(a), LengthUnit::Length(b)) => a.same(b),
            (LengthUnit::Generic(a), LengthUnit::Generic(b)) => a.same(b),
            (_, _) => false,
        }
    }
}

impl TryClone for AngleUnit {
    fn try_clone(&self, alloc: Global) -> Result<AngleUnit, AllocError> {
        match self {
            AngleUnit::Angle(unit) => Ok(AngleUnit::Angle(unit.try_clone(alloc)?)),
            AngleUnit::Generic(unit) => Ok(AngleUnit::Generic(unit.try_clone(alloc)?)),
        }
    }
}

impl Same for AngleUnit {
    fn same(&self, other: &AngleUnit) -> bool {
        match (self, other) {
            (AngleUnit::Angle(a), AngleUnit::Angle(b)) => a.same(b),
            (AngleUnit::Generic(a), AngleUnit::Generic(b)) => a.same(b),
            (_, _) => false,
        }
    }
}
