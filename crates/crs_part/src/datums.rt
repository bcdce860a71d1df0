//! Datums, and ensembles of them.

use crate::copies::{TryClone, four, three};
use crate::identifiers::{Ident, Named};
use crate::many::{Many, NonEmpty};
use crate::same::Same;
use crate::text::Text;
use crate::units::{AngleUnit, LengthUnit};
use crs_number::Decimal;
use std::alloc::{AllocError, Global};

/// An ellipsoid of revolution: its semi-major axis, and its inverse flattening, 0 for a sphere.
#[derive(Drop)]
pub struct Ellipsoid {
    pub name: Text,
    pub radius: Decimal,
    pub flattening: Decimal,
    pub unit: Option<LengthUnit>,
    pub ids: Many<Ident>,
}

/// A prime meridian, by its longitude from Greenwich.
#[derive(Drop)]
pub struct PrimeMeridian {
    pub name: Text,
    pub longitude: Decimal,
    pub unit: Option<AngleUnit>,
    pub ids: Many<Ident>,
}

/// A geodetic datum.
#[derive(Drop)]
pub struct Datum {
    pub name: Text,
    pub ellipsoid: Ellipsoid,
    pub anchor: Option<Text>,
    pub ids: Many<Ident>,
}

/// Geodetic datums that differ only within the accuracy.
#[derive(Drop)]
pub struct GeodeticEnsemble {
    pub name: Text,
    pub members: NonEmpty<Named>,
    pub ellipsoid: Ellipsoid,
    pub accuracy: Decimal,
    pub ids: Many<Ident>,
}

/// The datum or the ensemble of a geodetic reference system.
#[derive(Drop)]
pub enum GeodeticFrame {
    Datum(Datum),
    Ensemble(GeodeticEnsemble),
}

/// A vertical datum.
#[derive(Drop)]
pub struct VerticalDatum {
    pub name: Text,
    pub anchor: Option<Text>,
    pub ids: Many<Ident>,
}

/// Vertical datums that differ only within the accuracy.
#[derive(Drop)]
pub struct VerticalEnsemble {
    pub name: Text,
    pub members: NonEmpty<Named>,
    pub accuracy: Decimal,
    pub ids: Many<Ident>,
}

/// The datum or the ensemble of a vertical reference system.
#[derive(Drop)]
pub enum VerticalFrame {
    Datum(VerticalDatum),
    Ensemble(VerticalEnsemble),
}

impl TryClone for Ellipsoid {
    fn try_clone(&self, alloc: Global) -> Result<Ellipsoid, AllocError> {
        let (name, unit, ids) = three(alloc, &self.name, &self.unit, &self.ids)?;
        Ok(Ellipsoid {
            name,
            radius: self.radius,
            flattening: self.flattening,
            unit,
            ids,
        })
    }
}

impl Same for Ellipsoid {
    fn same(&self, other: &Ellipsoid) -> bool {
        self.name.same(&other.name)
            && self.radius.same(&other.radius)
            && self.flattening.same(&other.flattening)
            && self.unit.same(&other.unit)
            && self.ids.same(&other.ids)
    }
}

impl TryClone for PrimeMeridian {
    fn try_clone(&self, alloc: Global) -> Result<PrimeMeridian, AllocError> {
        let (name, unit, ids) = three(alloc, &self.name, &self.unit, &self.ids)?;
        Ok(PrimeMeridian {
            name,
            longitude: self.longitude,
            unit,
            ids,
        })
    }
}

impl Same for PrimeMeridian {
    fn same(&self, other: &PrimeMeridian) -> bool {
        self.name.same(&other.name)
            && self.longitude.same(&other.longitude)
            && self.unit.same(&other.unit)
            && self.ids.same(&other.ids)
    }
}

impl TryClone for Datum {
    fn try_clone(&self, alloc: Global) -> Result<Datum, AllocError> {
        let (name, ellipsoid, anchor, ids) = four(
            alloc,
            &self.name,
            &self.ellipsoid,
            &self.anchor,
            &self.ids,
        )?;
        Ok(Datum {
            name,
            ellipsoid,
            anchor,
            ids,
        })
    }
}

impl Same for Datum {
    fn same(&self, other: &Datum) -> bool {
        self.name.same(&other.name)
            && self.ellipsoid.same(&other.ellipsoid)
            && self.anchor.same(&other.anchor)
            && self.ids.same(&other.ids)
    }
}

impl TryClone for GeodeticEnsemble {
    fn try_clone(&self, alloc: Global) -> Result<GeodeticEnsemble, AllocError> {
        let (name, members, ellipsoid, ids) = four(
            alloc,
            &self.name,
            &self.members,
            &self.ellipsoid,
            &self.ids,
        )?;
        Ok(GeodeticEnsemble {
            name,
            members,
            ellipsoid,
            accuracy: self.accuracy,
            ids,
        })
    }
}

impl Same for GeodeticEnsemble {
    fn same(&self, other: &GeodeticEnsemble) -> bool {
        self.name.same(&other.name)
            && self.members.same(&other.members)
            && self.ellipsoid.same(&other.ellipsoid)
            && self.accuracy.same(&other.accuracy)
            && self.ids.same(&other.ids)
    }
}

impl TryClone for GeodeticFrame {
    fn try_clone(&self, alloc: Global) -> Result<GeodeticFrame, AllocError> {
        match self {
            GeodeticFrame::Datum(datum) => Ok(GeodeticFrame::Datum(datum.try_clone(alloc)?)),
            GeodeticFrame::Ensemble(ensemble) => Ok(GeodeticFrame::Ensemble(ensemble.try_clone(
                alloc,
            )?)),
        }
    }
}

impl Same for GeodeticFrame {
    fn same(&self, other: &GeodeticFrame) -> bool {
        match (self, other) {
            (GeodeticFrame::Datum(a), GeodeticFrame::Datum(b)) => a.same(b),
            (GeodeticFrame::Ensemble(a), GeodeticFrame::Ensemble(b)) => a.same(b),
            (_, _) => false,
        }
    }
}

impl TryClone for VerticalDatum {
    fn try_clone(&self, alloc: Global) -> Result<VerticalDatum, AllocError> {
        let (name, anchor, ids) = three(alloc, &self.name, &self.anchor, &self.ids)?;
        Ok(VerticalDatum { name, anchor, ids })
    }
}

impl Same for VerticalDatum {
    fn same(&self, other: &VerticalDatum) -> bool {
        self.name.same(&other.name) && self.anchor.same(&other.anchor) && self.ids.same(&other.ids)
    }
}

impl TryClone for VerticalEnsemble {
    fn try_clone(&self, alloc: Global) -> Result<VerticalEnsemble, AllocError> {
        let (name, members, ids) = three(alloc, &self.name, &self.members, &self.ids)?;
        Ok(VerticalEnsemble {
            name,
            members,
            accuracy: self.accuracy,
            ids,
        })
    }
}

impl Same for VerticalEnsemble {
    fn same(&self, other: &VerticalEnsemble) -> bool {
        self.name.same(&other.name)
            && self.members.same(&other.members)
            && self.accuracy.same(&other.accuracy)
            && self.ids.same(&other.ids)
    }
}

impl TryClone for VerticalFrame {
    fn try_clone(&self, alloc: Global) -> Result<VerticalFrame, AllocError> {
        match self {
            VerticalFrame::Datum(datum) => Ok(VerticalFrame::Datum(datum.try_clone(alloc)?)),
            VerticalFrame::Ensemble(ensemble) => Ok(VerticalFrame::Ensemble(ensemble.try_clone(
                alloc,
            )?)),
        }
    }
}

impl Same for VerticalFrame {
    fn same(&self, other: &VerticalFrame) -> bool {
        match (self, other) {
            (VerticalFrame::Datum(a), VerticalFrame::Datum(b)) => a.same(b),
            (VerticalFrame::Ensemble(a), VerticalFrame::Ensemble(b)) => a.same(b),
            (_, _) => false,
        }
    }
}
