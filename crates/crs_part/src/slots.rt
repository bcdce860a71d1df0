//! The slots that the kinds of coordinate reference systems have in common.

ghost use Rattle.std.specs.Prelude.{◌≡◌};
ghost use Rattle.crs_part.specs.Slots.{items_of, ellipsoid_of, system_of, axes_of, common_unit_of, name_of, ids_of};

use crate::crs::{CrsParts, Single};
use crate::datums::{Ellipsoid, GeodeticFrame};
use crate::identifiers::Ident;
use crate::many::NonEmpty;
use crate::systems::{Axis, CoordSystem};
use crate::text::Text;
use crate::units::Unit;

impl GeodeticFrame {
    /// The ellipsoid of the datum, or of the ensemble.
    pub fn ellipsoid(&self) -> &Ellipsoid
        ensures { result.now ≡ ellipsoid_of self.now }
    {
        match self {
            GeodeticFrame::Datum(datum) => &datum.ellipsoid,
            GeodeticFrame::Ensemble(ensemble) => &ensemble.ellipsoid,
        }
    }
}

impl Single {
    /// The coordinate system: its kind and its dimension.
    pub fn system(&self) -> &CoordSystem
        ensures { result.now ≡ system_of self.now }
    {
        match self {
            Single::Geodetic(crs) => &crs.system,
            Single::Projected(crs) => &crs.system,
            Single::Vertical(crs) => &crs.system,
        }
    }

    /// The axes of the coordinate system, in order.
    pub fn axes(&self) -> &NonEmpty<Axis>
        ensures { items_of result.now ≡ axes_of self.now }
    {
        match self {
            Single::Geodetic(crs) => &crs.axes,
            Single::Projected(crs) => &crs.axes,
            Single::Vertical(crs) => &crs.axes,
        }
    }

    /// The common unit, for axes without their own.
    pub fn common_unit(&self) -> &Option<Unit>
        ensures { result.now ≡ common_unit_of self.now }
    {
        match self {
            Single::Geodetic(crs) => &crs.unit,
            Single::Projected(crs) => &crs.unit,
            Single::Vertical(crs) => &crs.unit,
        }
    }
}

impl CrsParts {
    /// The name of the whole.
    pub fn name(&self) -> &Text
        ensures { result.now ≡ name_of self.now }
    {
        match self {
            CrsParts::Single(Single::Geodetic(crs)) => &crs.name,
            CrsParts::Single(Single::Projected(crs)) => &crs.name,
            CrsParts::Single(Single::Vertical(crs)) => &crs.name,
            CrsParts::Compound(compound) => &compound.get().name,
        }
    }

    /// The identifiers of the whole.
    pub fn ids(&self) -> &[Ident]
        ensures { result.now ≡ ids_of self.now }
    {
        match self {
            CrsParts::Single(Single::Geodetic(crs)) => crs.ids.as_slice(),
            CrsParts::Single(Single::Projected(crs)) => crs.ids.as_slice(),
            CrsParts::Single(Single::Vertical(crs)) => crs.ids.as_slice(),
            CrsParts::Compound(compound) => compound.get().ids.as_slice(),
        }
    }
}
