//! Coordinate systems and their axes.

ghost use Rattle.std.specs.Prelude.{◌≡◌};
ghost use Rattle.wkt_grammar.specs.declared.table.Keyword.TheVariants as keywords;
ghost use Rattle.wkt_grammar.specs.declared.table.Node.TheVariants as nodes;
ghost use Rattle.wkt_grammar.specs.declared.table.Takes.TheVariants as kinds;
ghost use Rattle.wkt_grammar.specs.Denotes.{DenotesAxis, DenotesMeridian, DenotesOrder, DenotesSystem};

use crate::built::{Built, pass, take_each, take_maybe, take_one};
use crate::reader::Reader;
use crs_number::Decimal;
use crs_part::{
    AngleUnit, Axis, CoordSystem, Direction, Ident, Many, Meridian, Order, SystemKind, Text, Unit,
};
use std::alloc::{AllocError, Global};
use wkt_grammar::{Keyword, Node, Takes};

fn system_of(kind: SystemKind, dimension: u32, ids: Many<Ident>) -> CoordSystem
    ensures kind { result.kind ≡ kind }
    ensures dimension { result.dimension ≡ dimension }
    ensures ids { result.ids ≡ ids }
{
    CoordSystem {
        kind,
        dimension,
        ids,
    }
}

fn order_of(position: u32) -> Order
    ensures { result.position ≡ position }
{
    Order { position }
}

impl Built<CoordSystem> for CoordSystem {
    ghost slot_kind = { kinds.Node keywords.CoordinateSystem nodes.CoordinateSystem };

    ghost Denotes = { DenotesSystem };

    fn kind() -> Takes {
        Takes::Node(Keyword::CoordinateSystem, Node::CoordinateSystem)
    }

    fn build(alloc: Global, cursor: &mut Reader<'_>) -> Result<CoordSystem, AllocError> {
        pass(cursor);
        let kind = take_one::<SystemKind, SystemKind>(alloc, cursor)?;
        let dimension = take_one::<u32, u32>(alloc, cursor)?;
        let ids = take_each::<Ident, Ident>(alloc, cursor)?;
        pass(cursor);
        Ok(system_of(kind, dimension, ids))
    }
}

impl Built<Meridian> for Meridian {
    ghost slot_kind = { kinds.Node keywords.Meridian nodes.Meridian };

    ghost Denotes = { DenotesMeridian };

    fn kind() -> Takes {
        Takes::Node(Keyword::Meridian, Node::Meridian)
    }

    fn build(alloc: Global, cursor: &mut Reader<'_>) -> Result<Meridian, AllocError> {
        pass(cursor);
        let longitude = take_one::<Decimal, Decimal>(alloc, cursor)?;
        let unit = take_one::<AngleUnit, AngleUnit>(alloc, cursor)?;
        pass(cursor);
        Ok(Meridian { longitude, unit })
    }
}

impl Built<Order> for Order {
    ghost slot_kind = { kinds.Node keywords.Order nodes.Order };

    ghost Denotes = { DenotesOrder };

    fn kind() -> Takes {
        Takes::Node(Keyword::Order, Node::Order)
    }

    fn build(alloc: Global, cursor: &mut Reader<'_>) -> Result<Order, AllocError> {
        pass(cursor);
        let position = take_one::<u32, u32>(alloc, cursor)?;
        pass(cursor);
        Ok(order_of(position))
    }
}

impl Built<Axis> for Axis {
    ghost slot_kind = { kinds.Node keywords.Axis nodes.Axis };

    ghost Denotes = { DenotesAxis };

    fn kind() -> Takes {
        Takes::Node(Keyword::Axis, Node::Axis)
    }

    fn build(alloc: Global, cursor: &mut Reader<'_>) -> Result<Axis, AllocError> {
        pass(cursor);
        let name = take_one::<Text, Text>(alloc, cursor)?;
        let direction = take_one::<Direction, Direction>(alloc, cursor)?;
        let meridian = take_maybe::<Meridian, Meridian>(alloc, cursor)?;
        let order = take_maybe::<Order, Order>(alloc, cursor)?;
        let unit = take_maybe::<Unit, Unit>(alloc, cursor)?;
        let ids = take_each::<Ident, Ident>(alloc, cursor)?;
        pass(cursor);
        Ok(Axis {
            name,
            direction,
            meridian,
            order,
            unit,
            ids,
        })
    }
}
