//! Usages.

ghost use Rattle.wkt_grammar.specs.declared.table.Keyword.TheVariants as keywords;
ghost use Rattle.wkt_grammar.specs.declared.table.Node.TheVariants as nodes;
ghost use Rattle.wkt_grammar.specs.declared.table.Takes.TheVariants as kinds;
ghost use Rattle.wkt_grammar.specs.Denotes.{DenotesBoundingBox, DenotesUsage, DenotesVerticalExtent};

use crate::built::{Built, pass, take_maybe, take_one};
use crate::reader::Reader;
use crate::values::{take_maybe_value, take_value};
use crs_number::Decimal;
use crs_part::{BoundingBox, LengthUnit, Text, Usage, VerticalExtent};
use std::alloc::{AllocError, Global};
use wkt_grammar::{Keyword, Node, Takes};

impl Built<BoundingBox> for BoundingBox {
    ghost slot_kind = { kinds.Node keywords.BoundingBox nodes.BoundingBox };

    ghost Denotes = { DenotesBoundingBox };

    fn kind() -> Takes {
        Takes::Node(Keyword::BoundingBox, Node::BoundingBox)
    }

    fn build(alloc: Global, cursor: &mut Reader<'_>) -> Result<BoundingBox, AllocError> {
        pass(cursor);
        let south = take_one::<Decimal, Decimal>(alloc, cursor)?;
        let west = take_one::<Decimal, Decimal>(alloc, cursor)?;
        let north = take_one::<Decimal, Decimal>(alloc, cursor)?;
        let east = take_one::<Decimal, Decimal>(alloc, cursor)?;
        pass(cursor);
        Ok(BoundingBox {
            south,
            west,
            north,
            east,
        })
    }
}

impl Built<VerticalExtent> for VerticalExtent {
    ghost slot_kind = { kinds.Node keywords.VerticalExtent nodes.VerticalExtent };

    ghost Denotes = { DenotesVerticalExtent };

    fn kind() -> Takes {
        Takes::Node(Keyword::VerticalExtent, Node::VerticalExtent)
    }

    fn build(alloc: Global, cursor: &mut Reader<'_>) -> Result<VerticalExtent, AllocError> {
        pass(cursor);
        let low = take_one::<Decimal, Decimal>(alloc, cursor)?;
        let high = take_one::<Decimal, Decimal>(alloc, cursor)?;
        let unit = take_maybe::<LengthUnit, LengthUnit>(alloc, cursor)?;
        pass(cursor);
        Ok(VerticalExtent { low, high, unit })
    }
}

impl Built<Usage> for Usage {
    ghost slot_kind = { kinds.Node keywords.Usage nodes.Usage };

    ghost Denotes = { DenotesUsage };

    fn kind() -> Takes {
        Takes::Node(Keyword::Usage, Node::Usage)
    }

    fn build(alloc: Global, cursor: &mut Reader<'_>) -> Result<Usage, AllocError> {
        pass(cursor);
        let scope = take_value(alloc, cursor, Keyword::Scope)?;
        let area = take_maybe_value(alloc, cursor, Keyword::Area)?;
        let bounding_box = take_maybe::<BoundingBox, BoundingBox>(alloc, cursor)?;
        let vertical_extent = take_maybe::<VerticalExtent, VerticalExtent>(alloc, cursor)?;
        pass(cursor);
        Ok(Usage {
            scope,
            area,
            bounding_box,
            vertical_extent,
        })
    }
}
