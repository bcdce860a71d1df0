//! Nodes with a single text.

ghost use Rattle.std.specs.Prelude.{◌≡◌, ◌≤◌, length, false, true, IfOk, OnOk, None};
ghost use Rattle.wkt_grammar.specs.declared.table.Node.TheVariants as nodes;
ghost use Rattle.wkt_grammar.specs.declared.table.Takes.TheVariants as kinds;
ghost use Rattle.wkt_grammar.specs.Denotes.{DenotesValue, value_fields};
ghost use Rattle.wkt_build.specs.Reads.{BuildsNode, BuildsOne, BuildsSome, comes};

use crate::built::{pass, take_one};
use crate::reader::Reader;
use crs_part::Text;
use std::alloc::{AllocError, Global};
use wkt_grammar::{Keyword, Node, Takes};

fn build_value(alloc: Global, cursor: &mut Reader<'_>) -> Result<Text, AllocError>
    ensures builds { BuildsNode nodes.Value value_fields cursor.old cursor.new result }
    ensures shorter { length cursor.new ≤ length cursor.old }
{
    pass(cursor);
    let value = take_one::<Text, Text>(alloc, cursor)?;
    pass(cursor);
    Ok(value)
}

/// The text of the node with this keyword, after the next token.
pub(crate) fn take_value(
    alloc: Global,
    cursor: &mut Reader<'_>,
    keyword: Keyword,
) -> Result<Text, AllocError>
    ensures builds { BuildsOne (kinds.Node keyword nodes.Value) (DenotesValue keyword) cursor.old cursor.new result }
    ensures shorter { length cursor.new ≤ length cursor.old }
{
    pass(cursor);
    build_value(alloc, cursor)
}

/// The text of the next node, if it has this keyword.
pub(crate) fn take_maybe_value(
    alloc: Global,
    cursor: &mut Reader<'_>,
    keyword: Keyword,
) -> Result<Option<Text>, AllocError>
    ensures some { comes (kinds.Node keyword nodes.Value) cursor.old ≡ true → BuildsSome (kinds.Node keyword nodes.Value) (DenotesValue keyword) cursor.old cursor.new result }
    ensures none { comes (kinds.Node keyword nodes.Value) cursor.old ≡ false → OnOk result (cursor.new ≡ cursor.old) }
    ensures absent { comes (kinds.Node keyword nodes.Value) cursor.old ≡ false → IfOk result (λ o. o ≡ None) }
    ensures shorter { length cursor.new ≤ length cursor.old }
{
    if !cursor.comes(Takes::Node(keyword, Node::Value)) {
        return Ok(None);
    }
    let value = take_value(alloc, cursor, keyword)?;
    Ok(Some(value))
}
