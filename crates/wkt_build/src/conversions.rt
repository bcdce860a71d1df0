//! Conversions.

ghost use Rattle.wkt_grammar.specs.declared.table.Keyword.TheVariants as keywords;
ghost use Rattle.wkt_grammar.specs.declared.table.Node.TheVariants as nodes;
ghost use Rattle.wkt_grammar.specs.declared.table.Takes.TheVariants as kinds;
ghost use Rattle.wkt_grammar.specs.Denotes.{DenotesConversion, DenotesParameter};

use crate::built::{Built, pass, take_each, take_maybe, take_one};
use crate::identifiers::Method;
use crate::reader::Reader;
use crs_number::Decimal;
use crs_part::{Conversion, Ident, Named, Parameter, Text, Unit};
use std::alloc::{AllocError, Global};
use wkt_grammar::{Keyword, Node, Takes};

impl Built<Parameter> for Parameter {
    ghost slot_kind = { kinds.Node keywords.Parameter nodes.Parameter };

    ghost Denotes = { DenotesParameter };

    fn kind() -> Takes {
        Takes::Node(Keyword::Parameter, Node::Parameter)
    }

    fn build(alloc: Global, cursor: &mut Reader<'_>) -> Result<Parameter, AllocError> {
        pass(cursor);
        let name = take_one::<Text, Text>(alloc, cursor)?;
        let value = take_one::<Decimal, Decimal>(alloc, cursor)?;
        let unit = take_maybe::<Unit, Unit>(alloc, cursor)?;
        let ids = take_each::<Ident, Ident>(alloc, cursor)?;
        pass(cursor);
        Ok(Parameter {
            name,
            value,
            unit,
            ids,
        })
    }
}

impl Built<Conversion> for Conversion {
    ghost slot_kind = { kinds.Node keywords.Conversion nodes.Conversion };

    ghost Denotes = { DenotesConversion };

    fn kind() -> Takes {
        Takes::Node(Keyword::Conversion, Node::Conversion)
    }

    fn build(alloc: Global, cursor: &mut Reader<'_>) -> Result<Conversion, AllocError> {
        pass(cursor);
        let name = take_one::<Text, Text>(alloc, cursor)?;
        let method = take_one::<Method, Named>(alloc, cursor)?;
        let parameters = take_each::<Parameter, Parameter>(alloc, cursor)?;
        let ids = take_each::<Ident, Ident>(alloc, cursor)?;
        pass(cursor);
        Ok(Conversion {
            name,
            method,
            parameters,
            ids,
        })
    }
}
