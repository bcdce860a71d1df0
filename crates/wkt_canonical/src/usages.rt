//! Usages.
ghost use Rattle.wkt_grammar.specs.declared.table.Keyword.TheVariants as keywords;
ghost use Rattle.wkt_grammar.specs.Trees.{bounding_box_tree, vertical_extent_tree, usage_tree};
ghost use Rattle.wkt_canonical.specs.Reads.{any};
ghost use Rattle.wkt_canonical.specs.Tests.{extent_passes, usage_passes};

use crate::front::{begins, behind};
use crate::node::{CanonicalNode, maybe};
use crate::numerals::{number, number_behind_comma};
use crate::units::maybe_length_unit;
use crate::values::{maybe_value, value};
use crs_part::{BoundingBox, Usage, VerticalExtent};
use wkt_grammar::Keyword;

impl CanonicalNode for BoundingBox {
    ghost tree = { bounding_box_tree };

    ghost test = { any };

    ghost keyword = { keywords.BoundingBox };

    fn keyword() -> Keyword {
        Keyword::BoundingBox
    }

    fn inside(bytes: &[u8]) -> Option<&[u8]> {
        let rest = number(bytes)?;
        let rest = number_behind_comma(rest)?;
        let rest = number_behind_comma(rest)?;
        let rest = number_behind_comma(rest)?;
        let rest = behind(rest, b"]")?;
        Some(rest)
    }
}

impl CanonicalNode for VerticalExtent {
    ghost tree = { vertical_extent_tree };

    ghost test = { extent_passes };

    ghost keyword = { keywords.VerticalExtent };

    fn keyword() -> Keyword {
        Keyword::VerticalExtent
    }

    fn inside(bytes: &[u8]) -> Option<&[u8]> {
        let rest = number(bytes)?;
        let rest = number_behind_comma(rest)?;
        let rest = maybe_length_unit(rest);
        let rest = behind(rest, b"]")?;
        Some(rest)
    }
}

impl CanonicalNode for Usage {
    ghost tree = { usage_tree };

    ghost test = { usage_passes };

    ghost keyword = { keywords.Usage };

    fn keyword() -> Keyword {
        Keyword::Usage
    }

    fn inside(bytes: &[u8]) -> Option<&[u8]> {
        let scope = begins(bytes, Keyword::Scope)?;
        let rest = value(scope)?;
        let rest = maybe_value(Keyword::Area, rest)?;
        let rest = maybe::<BoundingBox>(rest)?;
        let rest = maybe::<VerticalExtent>(rest)?;
        let rest = behind(rest, b"]")?;
        Some(rest)
    }
}
