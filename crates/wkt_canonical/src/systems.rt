//! Coordinate systems and their axes.

ghost use Rattle.std.specs.Prelude.{◌≡◌, ◌<◌, true, IfSome};
ghost use Rattle.wkt_grammar.specs.declared.table.Keyword.TheVariants as keywords;
ghost use Rattle.wkt_grammar.specs.Trees.{meridian_tree};
ghost use Rattle.wkt_canonical.specs.Reads.{ReadsSystem, ReadsMeridian, ReadsOrder, ReadsAxisUnit, ReadsCommonUnit, ReadsAxis, ReadsAxes};
ghost use Rattle.wkt_canonical.specs.Tests.{meridian_passes, FitsEach};

use crate::front::{behind, opens};
use crate::leaves::text;
use crate::node::{CanonicalNode, each, one};
use crate::numerals::number;
use crate::units::{angle_unit, unit};
use crate::words::{digit, direction, kind};
use crs_part::{Direction, Ident, Meridian, SystemKind};
use crs_value::{UnitKind, is_north_or_south, takes_unit};
use wkt_grammar::Keyword;

/// The kind and the dimension of a coordinate system, and the rest after it.
pub(crate) fn system(bytes: &[u8]) -> Option<(SystemKind, u32, &[u8])>
    ensures { IfSome result (λ found. ReadsSystem found.0 found.1 bytes.now found.2.now) }
{
    let inside = opens(bytes, Keyword::CoordinateSystem)?;
    let (kind, rest) = kind(inside)?;
    let rest = behind(rest, b",")?;
    let (dimension, rest) = digit(rest)?;
    let rest = each::<Ident>(rest)?;
    let rest = behind(rest, b"]")?;
    Some((kind, dimension, rest))
}

impl CanonicalNode for Meridian {
    ghost tree = { meridian_tree };

    ghost test = { meridian_passes };

    ghost keyword = { keywords.Meridian };

    fn keyword() -> Keyword {
        Keyword::Meridian
    }

    fn inside(bytes: &[u8]) -> Option<&[u8]> {
        let rest = number(bytes)?;
        let rest = angle_unit(rest)?;
        let rest = behind(rest, b"]")?;
        Some(rest)
    }
}

/// The rest after an optional meridian. Only an axis to the north or the south may have one.
fn meridian(direction: Direction, bytes: &[u8]) -> Option<&[u8]>
    ensures { IfSome result (λ rest. ReadsMeridian direction bytes.now rest.now) }
{
    let Some(rest) = one::<Meridian>(bytes) else {
        return Some(bytes);
    };
    if !is_north_or_south(direction) {
        return None;
    }
    Some(rest)
}

/// Whether the axis has an order, which must be its own, and the rest after it.
fn order(k: usize, bytes: &[u8]) -> Option<(bool, &[u8])>
    requires { k < 3 }
    ensures { IfSome result (λ found. ReadsOrder k found.0 bytes.now found.1.now) }
{
    let Some(inside) = opens(bytes, Keyword::Order) else {
        return Some((false, bytes));
    };
    let (position, rest) = digit(inside)?;
    let rest = behind(rest, b"]")?;
    if position as usize != k + 1 {
        return None;
    }
    Some((true, rest))
}

/// Whether the axis has a unit, which must fit it, and the rest after it.
fn axis_unit(kind: SystemKind, k: usize, bytes: &[u8]) -> Option<(bool, &[u8])>
    ensures { IfSome result (λ found. ReadsAxisUnit kind k found.0 bytes.now found.1.now) }
{
    let Some((unit_kind, rest)) = unit(bytes) else {
        return Some((false, bytes));
    };
    if !takes_unit(kind, k, unit_kind) {
        return None;
    }
    Some((true, rest))
}

/// The rest after the common unit of the axes, if there is one. If the axes have no units, it is required and must fit
/// each of them.
fn common_unit(kind: SystemKind, dimension: u32, has_unit: bool, bytes: &[u8]) -> Option<&[u8]>
    ensures { IfSome result (λ rest. ReadsCommonUnit kind dimension has_unit bytes.now rest.now) }
{
    let Some((unit_kind, rest)) = unit(bytes) else {
        if !has_unit {
            return None;
        }
        return Some(bytes);
    };
    if has_unit {
        return Some(rest);
    }
    if !fits_each(kind, dimension, unit_kind) {
        return None;
    }
    Some(rest)
}

/// Whether a unit fits each of at most three axes.
fn fits_each(kind: SystemKind, dimension: u32, unit_kind: UnitKind) -> bool
    ensures { result ≡ true → FitsEach kind dimension unit_kind }
{
    if !takes_unit(kind, 0, unit_kind) {
        return false;
    }
    if 1 < dimension && !takes_unit(kind, 1, unit_kind) {
        return false;
    }
    if 2 < dimension && !takes_unit(kind, 2, unit_kind) {
        return false;
    }
    true
}

/// Whether the axis with index `k` has an order, whether it has a unit, and the rest after the axis.
fn axis(system: SystemKind, k: usize, bytes: &[u8]) -> Option<(bool, bool, &[u8])>
    requires { k < 3 }
    ensures { IfSome result (λ found. ReadsAxis system k found.0 found.1 bytes.now found.2.now) }
{
    let inside = opens(bytes, Keyword::Axis)?;
    let rest = text(inside)?;
    let rest = behind(rest, b",")?;
    let (direction, rest) = direction(rest)?;
    let rest = meridian(direction, rest)?;
    let (has_order, rest) = order(k, rest)?;
    let (has_unit, rest) = axis_unit(system, k, rest)?;
    let rest = each::<Ident>(rest)?;
    let rest = behind(rest, b"]")?;
    Some((has_order, has_unit, rest))
}

/// The rest after an axis that has an order and a unit exactly if the axes before it have them.
fn further_axis(
    system: SystemKind,
    k: usize,
    has_order: bool,
    has_unit: bool,
    bytes: &[u8],
) -> Option<&[u8]>
    requires { k < 3 }
    ensures { IfSome result (λ rest. ReadsAxis system k has_order has_unit bytes.now rest.now) }
{
    let (has_order_too, has_unit_too, rest) = axis(system, k, bytes)?;
    if has_order_too != has_order {
        return None;
    }
    if has_unit_too != has_unit {
        return None;
    }
    Some(rest)
}

/// The rest after the axes of a system and their common unit.
pub(crate) fn axes(system: SystemKind, dimension: u32, bytes: &[u8]) -> Option<&[u8]>
    ensures { IfSome result (λ rest. ReadsAxes system dimension bytes.now rest.now) }
{
    let (has_order, has_unit, rest) = axis(system, 0, bytes)?;
    if dimension == 1 {
        let rest = common_unit(system, dimension, has_unit, rest)?;
        return Some(rest);
    }
    let rest = further_axis(system, 1, has_order, has_unit, rest)?;
    if dimension == 2 {
        let rest = common_unit(system, dimension, has_unit, rest)?;
        return Some(rest);
    }
    if dimension != 3 {
        return None;
    }
    let rest = further_axis(system, 2, has_order, has_unit, rest)?;
    let rest = common_unit(system, dimension, has_unit, rest)?;
    Some(rest)
}
