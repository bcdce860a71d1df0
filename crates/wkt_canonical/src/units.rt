//! Units.

ghost use Rattle.std.specs.Prelude.{IfSome};
ghost use Rattle.wkt_grammar.specs.Trees.{unit_of_tree, unit_tree, length_unit_tree, angle_unit_tree};
ghost use Rattle.crs_value.specs.Conditions.{has_positive_factor};
ghost use Rattle.wkt_canonical.specs.Reads.{ReadsOne, ReadsMaybe, ReadsWithin, ReadsUnit};
ghost use Rattle.wkt_canonical.specs.Tests.{unit_passes, length_unit_passes, angle_unit_passes};

use crate::front::{behind, opens};
use crate::leaves::text;
use crate::node::each;
use crate::numerals::positive_number_behind_comma;
use crs_part::Ident;
use crs_value::UnitKind;
use wkt_grammar::Keyword;

/// The rest after a unit, read from after its opening delimiter.
fn definition(bytes: &[u8]) -> Option<&[u8]>
    ensures { IfSome result (λ rest. ReadsWithin has_positive_factor unit_of_tree bytes.now rest.now) }
{
    let rest = text(bytes)?;
    let rest = positive_number_behind_comma(rest)?;
    // Most units have no identifier.
    if let Some(rest) = behind(rest, b"]") {
        return Some(rest);
    }
    let rest = each::<Ident>(rest)?;
    let rest = behind(rest, b"]")?;
    Some(rest)
}

/// The kind of the unit that comes next, and the rest after it.
pub(crate) fn unit(bytes: &[u8]) -> Option<(UnitKind, &[u8])>
    ensures { IfSome result (λ found. ReadsUnit found.0 bytes.now found.1.now) }
{
    if let Some(inside) = opens(bytes, Keyword::LengthUnit) {
        let rest = definition(inside)?;
        return Some((UnitKind::Length, rest));
    }
    if let Some(inside) = opens(bytes, Keyword::AngleUnit) {
        let rest = definition(inside)?;
        return Some((UnitKind::Angle, rest));
    }
    if let Some(inside) = opens(bytes, Keyword::ScaleUnit) {
        let rest = definition(inside)?;
        return Some((UnitKind::Scale, rest));
    }
    let inside = opens(bytes, Keyword::Unit)?;
    let rest = definition(inside)?;
    Some((UnitKind::Generic, rest))
}

/// The rest after an optional unit.
pub(crate) fn maybe_unit(bytes: &[u8]) -> &[u8]
    ensures { ReadsMaybe unit_passes unit_tree bytes.now result.now }
{
    match unit(bytes) {
        Some((_, rest)) => rest,
        None => bytes,
    }
}

fn length_unit(bytes: &[u8]) -> Option<&[u8]>
    ensures { IfSome result (λ rest. ReadsOne length_unit_passes length_unit_tree bytes.now rest.now) }
{
    if let Some(inside) = opens(bytes, Keyword::LengthUnit) {
        let rest = definition(inside)?;
        return Some(rest);
    }
    let inside = opens(bytes, Keyword::Unit)?;
    let rest = definition(inside)?;
    Some(rest)
}

/// The rest after an optional unit of length.
pub(crate) fn maybe_length_unit(bytes: &[u8]) -> &[u8]
    ensures { ReadsMaybe length_unit_passes length_unit_tree bytes.now result.now }
{
    match length_unit(bytes) {
        Some(rest) => rest,
        None => bytes,
    }
}

/// The rest after a unit of angle.
pub(crate) fn angle_unit(bytes: &[u8]) -> Option<&[u8]>
    ensures { IfSome result (λ rest. ReadsOne angle_unit_passes angle_unit_tree bytes.now rest.now) }
{
    if let Some(inside) = opens(bytes, Keyword::AngleUnit) {
        let rest = definition(inside)?;
        return Some(rest);
    }
    let inside = opens(bytes, Keyword::Unit)?;
    let rest = definition(inside)?;
    Some(rest)
}

/// The rest after an optional unit of angle.
pub(crate) fn maybe_angle_unit(bytes: &[u8]) -> &[u8]
    ensures { ReadsMaybe angle_unit_passes angle_unit_tree bytes.now result.now }
{
    match angle_unit(bytes) {
        Some(rest) => rest,
        None => bytes,
    }
}
