//! Identifiers, and nodes with only a name and identifiers.

ghost use Rattle.std.specs.Prelude.{◌≤◌, length};
ghost use Rattle.wkt_grammar.specs.declared.table.Keyword.TheVariants as keywords;
ghost use Rattle.wkt_grammar.specs.declared.table.Node.TheVariants as nodes;
ghost use Rattle.wkt_grammar.specs.declared.table.Takes.TheVariants as kinds;
ghost use Rattle.wkt_grammar.specs.Denotes.{DenotesIdent, DenotesNamed, named_fields};
ghost use Rattle.wkt_build.specs.Reads.{BuildsNode};

use crate::built::{Built, pass, take_each, take_maybe, take_one};
use crate::reader::Reader;
use crate::values::take_maybe_value;
use crs_part::{Ident, Named, NumberOrText, Text};
use std::alloc::{AllocError, Global};
use wkt_grammar::{Keyword, Node, Takes};

impl Built<Ident> for Ident {
    ghost slot_kind = { kinds.Node keywords.Identifier nodes.Identifier };

    ghost Denotes = { DenotesIdent };

    fn kind() -> Takes {
        Takes::Node(Keyword::Identifier, Node::Identifier)
    }

    fn build(alloc: Global, cursor: &mut Reader<'_>) -> Result<Ident, AllocError> {
        pass(cursor);
        let authority = take_one::<Text, Text>(alloc, cursor)?;
        let code = take_one::<NumberOrText, NumberOrText>(alloc, cursor)?;
        let version = take_maybe::<NumberOrText, NumberOrText>(alloc, cursor)?;
        let citation = take_maybe_value(alloc, cursor, Keyword::Citation)?;
        let uri = take_maybe_value(alloc, cursor, Keyword::Uri)?;
        pass(cursor);
        Ok(Ident {
            authority,
            code,
            version,
            citation,
            uri,
        })
    }
}

pub(crate) fn build_named(alloc: Global, cursor: &mut Reader<'_>) -> Result<Named, AllocError>
    ensures builds { BuildsNode nodes.Named named_fields cursor.old cursor.new result }
    ensures shorter { length cursor.new ≤ length cursor.old }
{
    pass(cursor);
    let name = take_one::<Text, Text>(alloc, cursor)?;
    let ids = take_each::<Ident, Ident>(alloc, cursor)?;
    pass(cursor);
    Ok(Named { name, ids })
}

/// A node `MEMBER`.
pub(crate) struct Member;

impl Built<Named> for Member {
    ghost slot_kind = { kinds.Node keywords.Member nodes.Named };

    ghost Denotes = { DenotesNamed keywords.Member };

    fn kind() -> Takes {
        Takes::Node(Keyword::Member, Node::Named)
    }

    fn build(alloc: Global, cursor: &mut Reader<'_>) -> Result<Named, AllocError> {
        build_named(alloc, cursor)
    }
}

/// A node `METHOD`.
pub(crate) struct Method;

impl Built<Named> for Method {
    ghost slot_kind = { kinds.Node keywords.Method nodes.Named };

    ghost Denotes = { DenotesNamed keywords.Method };

    fn kind() -> Takes {
        Takes::Node(Keyword::Method, Node::Named)
    }

    fn build(alloc: Global, cursor: &mut Reader<'_>) -> Result<Named, AllocError> {
        build_named(alloc, cursor)
    }
}

/// A node `GEOIDMODEL`.
pub(crate) struct GeoidModel;

impl Built<Named> for GeoidModel {
    ghost slot_kind = { kinds.Node keywords.GeoidModel nodes.Named };

    ghost Denotes = { DenotesNamed keywords.GeoidModel };

    fn kind() -> Takes {
        Takes::Node(Keyword::GeoidModel, Node::Named)
    }

    fn build(alloc: Global, cursor: &mut Reader<'_>) -> Result<Named, AllocError> {
        build_named(alloc, cursor)
    }
}
