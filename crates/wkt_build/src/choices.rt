//! The choices that a keyword makes.

ghost use Rattle.std.specs.Prelude.{◌≡◌};
ghost use Rattle.wkt_build.specs.Choices.{angle_unit_as, geodetic_kind_of, is_compound, is_ensemble, is_projected, is_vertical, length_unit_as, unit_as};

use crs_part::{AngleUnit, GeodeticKind, LengthUnit, Unit, UnitDefinition};
use wkt_grammar::Keyword;

pub(crate) fn unit_as(keyword: Option<Keyword>, unit: UnitDefinition) -> Unit
    ensures { result ≡ unit_as keyword unit }
{
    match keyword {
        Some(Keyword::LengthUnit) => Unit::Length(unit),
        Some(Keyword::AngleUnit) => Unit::Angle(unit),
        Some(Keyword::ScaleUnit) => Unit::Scale(unit),
        _ => Unit::Generic(unit),
    }
}

pub(crate) fn length_unit_as(keyword: Option<Keyword>, unit: UnitDefinition) -> LengthUnit
    ensures { result ≡ length_unit_as keyword unit }
{
    match keyword {
        Some(Keyword::LengthUnit) => LengthUnit::Length(unit),
        _ => LengthUnit::Generic(unit),
    }
}

pub(crate) fn angle_unit_as(keyword: Option<Keyword>, unit: UnitDefinition) -> AngleUnit
    ensures { result ≡ angle_unit_as keyword unit }
{
    match keyword {
        Some(Keyword::AngleUnit) => AngleUnit::Angle(unit),
        _ => AngleUnit::Generic(unit),
    }
}

pub(crate) fn geodetic_kind_of(keyword: Option<Keyword>) -> GeodeticKind
    ensures { result ≡ geodetic_kind_of keyword }
{
    match keyword {
        Some(Keyword::GeodeticCrs) => GeodeticKind::Geodetic,
        Some(Keyword::BaseGeodeticCrs) => GeodeticKind::Geodetic,
        _ => GeodeticKind::Geographic,
    }
}

pub(crate) fn is_ensemble(keyword: Option<Keyword>) -> bool
    ensures { result ≡ is_ensemble keyword }
{
    matches!(keyword, Some(Keyword::Ensemble))
}

pub(crate) fn is_projected(keyword: Option<Keyword>) -> bool
    ensures { result ≡ is_projected keyword }
{
    matches!(keyword, Some(Keyword::ProjectedCrs))
}

pub(crate) fn is_vertical(keyword: Option<Keyword>) -> bool
    ensures { result ≡ is_vertical keyword }
{
    matches!(keyword, Some(Keyword::VerticalCrs))
}

pub(crate) fn is_compound(keyword: Option<Keyword>) -> bool
    ensures { result ≡ is_compound keyword }
{
    matches!(keyword, Some(Keyword::CompoundCrs))
}
