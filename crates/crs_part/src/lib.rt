//! The parts of coordinate reference systems, as plain values.
#![tactic(auto)]

mod boxed;
mod conversions;
mod copies;
mod crs;
mod datums;
mod identifiers;
mod many;
mod same;
mod slots;
mod systems;
mod text;
mod units;
mod usages;
mod words;

pub use boxed::Boxed;
pub use conversions::{Conversion, Parameter};
pub use copies::TryClone;
pub use crs::{BaseCrs, Compound, CrsParts, Geodetic, GeodeticKind, Projected, Single, Vertical};
pub use datums::{
    Datum, Ellipsoid, GeodeticEnsemble, GeodeticFrame, PrimeMeridian, VerticalDatum,
    VerticalEnsemble, VerticalFrame,
};
pub use identifiers::{Ident, Named, NumberOrText};
pub use many::{Many, NonEmpty};
pub use same::Same;
pub use systems::{Axis, CoordSystem, Direction, Meridian, Order, SystemKind};
pub use text::Text;
pub use units::{AngleUnit, LengthUnit, Unit, UnitDefinition};
pub use usages::{BoundingBox, Usage, VerticalExtent};
pub use words::{Word, first_of, same_word};
