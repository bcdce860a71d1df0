//! The sizes of ellipsoids, and the conversion factors of all units.

ghost use Rattle.std.specs.Prelude.{◌≡◌, List, []};
ghost use Rattle.std.specs.Int.{is_positive, is_negative};
ghost use Rattle.std.specs.List.{list_all, flat_map};
ghost use Rattle.std.specs.Option.{option_map_or};
ghost use Rattle.crs_part.specs.Slots.{items_of};
ghost use Rattle.crs_part.specs.declared.units.UnitDefinition.{UnitDefinition};
ghost use Rattle.crs_value.specs.Conditions.{has_size, ellipsoid_has_size, has_positive_factor, has_sizes, has_own_sizes};
ghost use Rattle.crs_value.specs.Units.{any_units, length_units, angle_units, extent_units, usage_units, frame_units, prime_meridian_units, meridian_units, axis_units, parameter_units, conversion_units, base_units, units_of};

use crs_number::Decimal;
use crs_part::{
    AngleUnit, Axis, BaseCrs, Compound, Conversion, Ellipsoid, GeodeticFrame, LengthUnit, Many,
    Meridian, NonEmpty, Parameter, PrimeMeridian, Single, Unit, UnitDefinition, Usage,
    VerticalExtent,
};

pub(crate) fn has_sizes(single: &Single) -> bool
    ensures { result ≡ has_sizes single.now }
{
    ellipsoid_has_size(single) && single.has_positive_factors()
}

pub(crate) fn has_own_sizes(compound: &Compound) -> bool
    ensures { result ≡ has_own_sizes compound.now }
{
    compound.usages.has_positive_factors()
}

fn ellipsoid_has_size(single: &Single) -> bool
    ensures { result ≡ ellipsoid_has_size single.now }
{
    match single {
        Single::Geodetic(crs) => has_size(crs.datum.ellipsoid()),
        Single::Projected(crs) => has_size(crs.base.datum.ellipsoid()),
        Single::Vertical(_) => true,
    }
}

fn has_size(ellipsoid: &Ellipsoid) -> bool
    ensures { result ≡ has_size ellipsoid.now }
{
    is_positive(ellipsoid.radius) && !is_negative(ellipsoid.flattening)
}

fn is_positive(number: Decimal) -> bool
    ensures { result ≡ is_positive number.coefficient }
{
    number.coefficient() > 0
}

fn is_negative(number: Decimal) -> bool
    ensures { result ≡ is_negative number.coefficient }
{
    number.coefficient() < 0
}

/// A value that contains units.
trait HasUnits {
    ghost units: { Self → List UnitDefinition };

    fn has_positive_factors(&self) -> bool
        ensures { result ≡ list_all has_positive_factor (units self.now) };
}

impl<T: HasUnits> HasUnits for Option<T> {
    ghost units = { λ part. option_map_or T.units part [] };

    fn has_positive_factors(&self) -> bool {
        match self {
            Some(part) => part.has_positive_factors(),
            None => true,
        }
    }
}

impl<T: HasUnits> HasUnits for Many<T> {
    ghost units = { flat_map T.units };

    fn has_positive_factors(&self) -> bool {
        have_positive_factors(self.as_slice())
    }
}

fn have_positive_factors<T: HasUnits>(parts: &[T]) -> bool
    ensures { result ≡ list_all (λ part. list_all has_positive_factor (T.units part)) parts.now }
{
    parts.iter().all(|part| part.has_positive_factors())
}

impl<T: HasUnits> HasUnits for NonEmpty<T> {
    ghost units = { λ some. flat_map T.units (items_of some) };

    fn has_positive_factors(&self) -> bool {
        self.first.has_positive_factors() && self.others.has_positive_factors()
    }
}

impl HasUnits for UnitDefinition {
    ghost use Rattle.std.specs.Prelude.{[], ◌∷◌};

    ghost units = { λ unit. unit ∷ [] };

    fn has_positive_factors(&self) -> bool {
        is_positive(self.factor)
    }
}

impl HasUnits for Unit {
    ghost units = { any_units };

    fn has_positive_factors(&self) -> bool {
        match self {
            Unit::Length(unit) | Unit::Angle(unit) | Unit::Scale(unit) | Unit::Generic(unit) => {
                unit.has_positive_factors()
            }
        }
    }
}

impl HasUnits for LengthUnit {
    ghost units = { length_units };

    fn has_positive_factors(&self) -> bool {
        match self {
            LengthUnit::Length(unit) | LengthUnit::Generic(unit) => unit.has_positive_factors(),
        }
    }
}

impl HasUnits for AngleUnit {
    ghost units = { angle_units };

    fn has_positive_factors(&self) -> bool {
        match self {
            AngleUnit::Angle(unit) | AngleUnit::Generic(unit) => unit.has_positive_factors(),
        }
    }
}

impl HasUnits for VerticalExtent {
    ghost units = { extent_units };

    fn has_positive_factors(&self) -> bool {
        self.unit.has_positive_factors()
    }
}

impl HasUnits for Usage {
    ghost units = { usage_units };

    fn has_positive_factors(&self) -> bool {
        self.vertical_extent.has_positive_factors()
    }
}

impl HasUnits for GeodeticFrame {
    ghost units = { frame_units };

    fn has_positive_factors(&self) -> bool {
        self.ellipsoid().unit.has_positive_factors()
    }
}

impl HasUnits for PrimeMeridian {
    ghost units = { prime_meridian_units };

    fn has_positive_factors(&self) -> bool {
        self.unit.has_positive_factors()
    }
}

impl HasUnits for Meridian {
    ghost units = { meridian_units };

    fn has_positive_factors(&self) -> bool {
        self.unit.has_positive_factors()
    }
}

impl HasUnits for Axis {
    ghost units = { axis_units };

    fn has_positive_factors(&self) -> bool {
        self.meridian.has_positive_factors() && self.unit.has_positive_factors()
    }
}

impl HasUnits for Parameter {
    ghost units = { parameter_units };

    fn has_positive_factors(&self) -> bool {
        self.unit.has_positive_factors()
    }
}

impl HasUnits for Conversion {
    ghost units = { conversion_units };

    fn has_positive_factors(&self) -> bool {
        self.parameters.has_positive_factors()
    }
}

impl HasUnits for BaseCrs {
    ghost units = { base_units };

    fn has_positive_factors(&self) -> bool {
        self.datum.has_positive_factors()
            && self.prime_meridian.has_positive_factors()
            && self.unit.has_positive_factors()
    }
}

impl HasUnits for Single {
    ghost units = { units_of };

    fn has_positive_factors(&self) -> bool {
        match self {
            Single::Geodetic(crs) => {
                crs.datum.has_positive_factors()
                    && crs.prime_meridian.has_positive_factors()
                    && crs.axes.has_positive_factors()
                    && crs.unit.has_positive_factors()
                    && crs.usages.has_positive_factors()
            }
            Single::Projected(crs) => {
                crs.base.has_positive_factors()
                    && crs.conversion.has_positive_factors()
                    && crs.axes.has_positive_factors()
                    && crs.unit.has_positive_factors()
                    && crs.usages.has_positive_factors()
            }
            Single::Vertical(crs) => {
                crs.axes.has_positive_factors()
                    && crs.unit.has_positive_factors()
                    && crs.usages.has_positive_factors()
            }
        }
    }
}
