//! Coordinate reference systems as values, and the conditions on them.
#![tactic(auto)]

mod axes;
mod broken;
mod checking;
mod crs;
mod key;
mod kinds;
pub mod search;
mod sizes;
mod systems;

pub use broken::{Broken, Condition, Whose};
pub use crs::Crs;
pub use crs_part::{
    AngleUnit, Axis, BaseCrs, BoundingBox, Boxed, Compound, Conversion, CoordSystem, CrsParts,
    Datum, Direction, Ellipsoid, Geodetic, GeodeticEnsemble, GeodeticFrame, GeodeticKind, Ident,
    LengthUnit, Many, Meridian, Named, NonEmpty, NumberOrText, Order, Parameter, PrimeMeridian,
    Projected, Same, Single, SystemKind, Text, TryClone, Unit, UnitDefinition, Usage, Vertical,
    VerticalDatum, VerticalEnsemble, VerticalFrame,
};
pub use key::Key;
pub use kinds::{
    UnitKind, is_cartesian_plane, is_ellipsoidal_plane, is_north_or_south, may_be_of,
    may_be_projected, may_be_vertical, takes_unit,
};
