//! Conversions.
ghost use Rattle.wkt_grammar.specs.declared.table.Keyword.TheVariants as keywords;
ghost use Rattle.wkt_grammar.specs.Trees.{parameter_tree, conversion_tree};
ghost use Rattle.wkt_canonical.specs.Tests.{parameter_passes, conversion_passes};

use crate::front::behind;
use crate::identifiers::method;
use crate::leaves::text;
use crate::node::{CanonicalNode, each};
use crate::numerals::number_behind_comma;
use crate::units::maybe_unit;
use crs_part::{Conversion, Ident, Parameter};
use wkt_grammar::Keyword;

impl CanonicalNode for Parameter {
    ghost tree = { parameter_tree };

    ghost test = { parameter_passes };

    ghost keyword = { keywords.Parameter };

    fn keyword() -> Keyword {
        Keyword::Parameter
    }

    fn inside(bytes: &[u8]) -> Option<&[u8]> {
        let rest = text(bytes)?;
        let rest = number_behind_comma(rest)?;
        let rest = maybe_unit(rest);
        let rest = each::<Ident>(rest)?;
        let rest = behind(rest, b"]")?;
        Some(rest)
    }
}

impl CanonicalNode for Conversion {
    ghost tree = { conversion_tree };

    ghost test = { conversion_passes };

    ghost keyword = { keywords.Conversion };

    fn keyword() -> Keyword {
        Keyword::Conversion
    }

    fn inside(bytes: &[u8]) -> Option<&[u8]> {
        let rest = text(bytes)?;
        let rest = method(rest)?;
        let rest = each::<Parameter>(rest)?;
        let rest = each::<Ident>(rest)?;
        let rest = behind(rest, b"]")?;
        Some(rest)
    }
}
