//! The conditions on the axes of a coordinate system.

ghost use Rattle.std.specs.Prelude.{◌≡◌, is_some, is_none, ◌||◌};
ghost use Rattle.std.specs.List.{list_all, enumerate_from};
ghost use Rattle.crs_part.specs.Slots.{items_of};
ghost use Rattle.crs_value.specs.Conditions.{has_axis_a_dimension, has_units, is_order, has_orders, unit_kind, unit_fits, axis_fits, units_fit, is_north_or_south, has_meridians};

use crate::kinds::{UnitKind, is_north_or_south, takes_unit};
use crs_part::{Axis, CoordSystem, NonEmpty, Order, SystemKind, Unit};

pub(crate) fn has_axis_a_dimension(system: &CoordSystem, axes: &NonEmpty<Axis>) -> bool
    ensures { result ≡ has_axis_a_dimension system.now (items_of axes.now) }
{
    let others = axes.others.as_slice().len();
    system.dimension > 0 && others == (system.dimension - 1) as usize
}

pub(crate) fn has_units(axes: &NonEmpty<Axis>, common: &Option<Unit>) -> bool
    ensures { result ≡ has_units (items_of axes.now) common.now }
{
    let is_common = common.is_some();
    (axes.first.unit.is_some() || is_common) && have_units(axes.others.as_slice(), is_common)
}

fn have_units(axes: &[Axis], is_common: bool) -> bool
    ensures { result ≡ list_all (λ axis. is_some axis.unit || is_common) axes.now }
{
    axes.iter().all(|axis| axis.unit.is_some() || is_common)
}

pub(crate) fn has_orders(axes: &NonEmpty<Axis>) -> bool
    ensures { result ≡ has_orders (items_of axes.now) }
{
    has_no_order(axes) || is_in_order(axes)
}

fn has_no_order(axes: &NonEmpty<Axis>) -> bool
    ensures { result ≡ list_all (λ axis. is_none axis.order) (items_of axes.now) }
{
    axes.first.order.is_none() && have_no_order(axes.others.as_slice())
}

fn have_no_order(axes: &[Axis]) -> bool
    ensures { result ≡ list_all (λ axis. is_none axis.order) axes.now }
{
    axes.iter().all(|axis| axis.order.is_none())
}

fn is_in_order(axes: &NonEmpty<Axis>) -> bool
    ensures { result ≡ list_all (λ p. is_order p.0 p.1.order) (enumerate_from 0 (items_of axes.now)) }
{
    is_order(0, &axes.first.order) && are_in_order(axes.others.as_slice())
}

/// Whether the axes after the first have orders, from 2.
fn are_in_order(others: &[Axis]) -> bool
    ensures { result ≡ list_all (λ p. is_order p.0 p.1.order) (enumerate_from 1 others.now) }
{
    for (i, axis) in others.iter().enumerate() {
        if !is_order(i + 1, &axis.order) {
            return false;
        }
    }
    true
}

/// Whether the order is that of the axis with this index.
fn is_order(index: usize, order: &Option<Order>) -> bool
    ensures { result ≡ is_order index order.now }
{
    match order {
        Some(order) => order.position > 0 && (order.position - 1) as usize == index,
        None => false,
    }
}

pub(crate) fn units_fit(system: SystemKind, axes: &NonEmpty<Axis>, common: &Option<Unit>) -> bool
    ensures { result ≡ units_fit system (items_of axes.now) common.now }
{
    axis_fits(system, common, 0, &axes.first) && others_fit(system, axes.others.as_slice(), common)
}

/// Whether units fit the axes after the first.
fn others_fit(system: SystemKind, others: &[Axis], common: &Option<Unit>) -> bool
    ensures { result ≡ list_all (λ p. axis_fits system common.now p.0 p.1) (enumerate_from 1 others.now) }
{
    for (i, axis) in others.iter().enumerate() {
        if !axis_fits(system, common, i + 1, axis) {
            return false;
        }
    }
    true
}

fn axis_fits(system: SystemKind, common: &Option<Unit>, index: usize, axis: &Axis) -> bool
    ensures { result ≡ axis_fits system common.now index axis.now }
{
    match (&axis.unit, common) {
        (Some(own), _) => unit_fits(system, index, own),
        (None, Some(common)) => unit_fits(system, index, common),
        (None, None) => true,
    }
}

fn unit_fits(system: SystemKind, index: usize, unit: &Unit) -> bool
    ensures { result ≡ unit_fits system index unit.now }
{
    takes_unit(system, index, unit_kind(unit))
}

fn unit_kind(unit: &Unit) -> UnitKind
    ensures { result ≡ unit_kind unit.now }
{
    match unit {
        Unit::Length(_) => UnitKind::Length,
        Unit::Angle(_) => UnitKind::Angle,
        Unit::Scale(_) => UnitKind::Scale,
        Unit::Generic(_) => UnitKind::Generic,
    }
}

pub(crate) fn has_meridians(axes: &NonEmpty<Axis>) -> bool
    ensures { result ≡ has_meridians (items_of axes.now) }
{
    has_meridian(&axes.first) && have_meridians(axes.others.as_slice())
}

fn have_meridians(axes: &[Axis]) -> bool
    ensures { result ≡ list_all (λ axis. is_none axis.meridian || is_north_or_south axis.direction) axes.now }
{
    axes.iter().all(has_meridian)
}

fn has_meridian(axis: &Axis) -> bool
    ensures { result ≡ (is_none axis.now.meridian || is_north_or_south axis.now.direction) }
{
    axis.meridian.is_none() || is_north_or_south(axis.direction)
}
