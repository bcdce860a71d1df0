//! The parts of systems that several rules look at.

ghost use Rattle.std.specs.Prelude.{◌≡◌};
ghost use Rattle.std.specs.Option.{option_or};
ghost use Rattle.std.specs.Option.{option_map};
ghost use Rattle.crs_exact.specs.Parts.{unit_of, length_of, angle_of, parameters_of, ellipsoid_in, prime_in, projected_in, usages_of, name_in, angle_in, base_unit, own_or_base, angles_of};
ghost use Rattle.crs_exact.specs.Said.{unit_said};

use crs_part::{
    AngleUnit, Ellipsoid, LengthUnit, Parameter, PrimeMeridian, Projected, Single, Unit,
    UnitDefinition, Usage,
};

/// The name and the factor of a unit.
pub fn unit_of(unit: &Unit) -> &UnitDefinition
    ensures { result.now ≡ unit_of unit.now }
{
    match unit {
        Unit::Length(unit) => unit,
        Unit::Angle(unit) => unit,
        Unit::Scale(unit) => unit,
        Unit::Generic(unit) => unit,
    }
}

/// The name and the factor of a unit of length.
pub fn length_of(unit: &LengthUnit) -> &UnitDefinition
    ensures { result.now ≡ length_of unit.now }
{
    match unit {
        LengthUnit::Length(unit) => unit,
        LengthUnit::Generic(unit) => unit,
    }
}

/// The name and the factor of a unit of angles.
pub fn angle_of(unit: &AngleUnit) -> &UnitDefinition
    ensures { result.now ≡ angle_of unit.now }
{
    match unit {
        AngleUnit::Angle(unit) => unit,
        AngleUnit::Generic(unit) => unit,
    }
}

/// The parameters of a conversion, which projected systems alone have.
pub fn parameters_of(crs: &Single) -> &[Parameter]
    ensures { result.now ≡ parameters_of crs.now }
{
    match crs {
        Single::Projected(crs) => crs.conversion.parameters.as_slice(),
        Single::Geodetic(_) | Single::Vertical(_) => &[],
    }
}

/// The unit of an axis: its own, or else the common one.
pub fn either<'a>(own: &'a Option<Unit>, common: &'a Option<Unit>) -> &'a Option<Unit>
    ensures { result.now ≡ option_or own.now common.now }
{
    match own {
        Some(_) => own,
        None => common,
    }
}

/// The name of a unit, or nothing.
pub fn unit_said(unit: &Option<Unit>) -> &[u8]
    ensures { result.now ≡ unit_said unit.now }
{
    match unit {
        Some(unit) => unit_of(unit).name.as_bytes(),
        None => &[],
    }
}

/// The ellipsoid of a system, which vertical ones lack.
pub fn ellipsoid_in(crs: &Single) -> Option<&Ellipsoid>
    ensures { option_map (λ e. e.now) result ≡ ellipsoid_in crs.now }
{
    match crs {
        Single::Geodetic(crs) => Some(crs.datum.ellipsoid()),
        Single::Projected(crs) => Some(crs.base.datum.ellipsoid()),
        Single::Vertical(_) => None,
    }
}

/// The prime meridian of a system, if it is given.
pub fn prime_in(crs: &Single) -> Option<&PrimeMeridian>
    ensures { option_map (λ m. m.now) result ≡ prime_in crs.now }
{
    match crs {
        Single::Geodetic(crs) => crs.prime_meridian.as_ref(),
        Single::Projected(crs) => crs.base.prime_meridian.as_ref(),
        Single::Vertical(_) => None,
    }
}

/// The system itself, if it is a projected one.
pub fn projected_in(crs: &Single) -> Option<&Projected>
    ensures { option_map (λ p. p.now) result ≡ projected_in crs.now }
{
    match crs {
        Single::Geodetic(_) => None,
        Single::Projected(crs) => Some(crs),
        Single::Vertical(_) => None,
    }
}

/// The areas of use of a system.
pub fn usages_of(crs: &Single) -> &[Usage]
    ensures { result.now ≡ usages_of crs.now }
{
    match crs {
        Single::Geodetic(crs) => crs.usages.as_slice(),
        Single::Projected(crs) => crs.usages.as_slice(),
        Single::Vertical(crs) => crs.usages.as_slice(),
    }
}

/// The name of a system.
pub fn name_in(crs: &Single) -> &[u8]
    ensures { result.now ≡ name_in crs.now }
{
    match crs {
        Single::Geodetic(crs) => crs.name.as_bytes(),
        Single::Projected(crs) => crs.name.as_bytes(),
        Single::Vertical(crs) => crs.name.as_bytes(),
    }
}

/// A unit, if it may be one of angles.
pub fn angle_in(unit: &Option<Unit>) -> Option<&UnitDefinition>
    ensures { option_map (λ u. u.now) result ≡ angle_in unit.now }
{
    match unit {
        Some(Unit::Length(_)) => None,
        Some(Unit::Angle(unit)) => Some(unit),
        Some(Unit::Scale(_)) => None,
        Some(Unit::Generic(unit)) => Some(unit),
        None => None,
    }
}

/// The unit of angles, if there is one.
pub fn base_unit(base: &Option<AngleUnit>) -> Option<&UnitDefinition>
    ensures { option_map (λ u. u.now) result ≡ base_unit base.now }
{
    match base {
        Some(base) => Some(angle_of(base)),
        None => None,
    }
}

/// The unit of an angle of a conversion: its own, or else that of the base system.
pub fn own_or_base<'a>(
    own: &'a Option<Unit>,
    base: &'a Option<AngleUnit>,
) -> Option<&'a UnitDefinition>
    ensures { option_map (λ u. u.now) result ≡ own_or_base own.now base.now }
{
    match own {
        Some(own) => Some(unit_of(own)),
        None => base_unit(base),
    }
}

/// The unit of the angles of a system that have none of their own, if there is one.
pub fn angles_of(crs: &Single) -> Option<&UnitDefinition>
    ensures { option_map (λ u. u.now) result ≡ angles_of crs.now }
{
    match crs {
        Single::Geodetic(crs) => angle_in(&crs.unit),
        Single::Projected(crs) => base_unit(&crs.base.unit),
        Single::Vertical(_) => None,
    }
}

/// The first unit, or else the second.
pub fn unit_or<'a>(
    own: Option<&'a UnitDefinition>,
    common: Option<&'a UnitDefinition>,
) -> Option<&'a UnitDefinition>
    ensures { option_map (λ u. u.now) result ≡ option_or (option_map (λ u. u.now) own.entry) (option_map (λ u. u.now) common.entry) }
{
    match own {
        Some(_) => own,
        None => common,
    }
}
