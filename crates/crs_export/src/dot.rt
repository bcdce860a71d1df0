//! The nodes and edges of a graph in DOT.

ghost use Rattle.std.specs.Prelude.{◌≡◌, ◌++◌, OnOk};
ghost use Rattle.crs_export.specs.DotQuotes.{escaped};
ghost use Rattle.crs_export.specs.declared.markup.TheConstants as markup;
ghost use Rattle.crs_export.specs.Graphs.{node, caption, edge, rivals};

use crate::dot_quotes::push_dot;
use crate::markup::{
    ARROW, BEFORE_CODE_IN_LABEL, BEFORE_COLOR, BEFORE_NAME_IN_LABEL, CAPTION_END, EDGE_END, LABEL,
    NODE_END, NODE_START, RIVALS_END,
};
use crate::title::Title;
use std::alloc::AllocError;

// Appends constant bytes and a text.
fn push_field(text: &mut Vec<u8>, before: &[u8], value: &[u8]) -> Result<(), AllocError>
    ensures { OnOk result (text.new.items ≡ text.old.items ++ (before.now ++ escaped value.now)) }
{
    text.extend_from_slice(before)?;
    push_dot(text, value)?;
    Ok(())
}

/// Appends the node of an entry, with its key and its name, in a color.
pub fn push_node(text: &mut Vec<u8>, title: &Title<'_>, color: &[u8]) -> Result<(), AllocError>
    ensures { OnOk result (text.new.items ≡ text.old.items ++ node title.now color.now) }
{
    push_field(text, NODE_START, title.entry)?;
    push_field(text, LABEL, title.authority)?;
    push_field(text, BEFORE_CODE_IN_LABEL, title.code)?;
    push_field(text, BEFORE_NAME_IN_LABEL, title.name)?;
    text.extend_from_slice(BEFORE_COLOR)?;
    text.extend_from_slice(color)?;
    text.extend_from_slice(NODE_END)?;
    Ok(())
}

/// Appends the label of an id that was not entered.
pub fn push_caption(text: &mut Vec<u8>, id: &[u8], shown: &[u8]) -> Result<(), AllocError>
    ensures { OnOk result (text.new.items ≡ text.old.items ++ caption id.now shown.now) }
{
    push_field(text, NODE_START, id)?;
    push_field(text, LABEL, shown)?;
    text.extend_from_slice(CAPTION_END)?;
    Ok(())
}

fn push_between(text: &mut Vec<u8>, one: &[u8], other: &[u8], end: &[u8]) -> Result<(), AllocError>
    ensures { OnOk result (text.new.items ≡ text.old.items ++ (markup.NODE_START.now ++ escaped one.now ++ markup.ARROW.now ++ escaped other.now ++ end.now)) }
{
    push_field(text, NODE_START, one)?;
    push_field(text, ARROW, other)?;
    text.extend_from_slice(end)?;
    Ok(())
}

/// Appends an edge from an entry to one that supersedes it, by their ids.
pub fn push_edge(text: &mut Vec<u8>, old: &[u8], newer: &[u8]) -> Result<(), AllocError>
    ensures { OnOk result (text.new.items ≡ text.old.items ++ edge old.now newer.now) }
{
    push_between(text, old, newer, EDGE_END)?;
    Ok(())
}

/// Appends a red line between two entries in conflict.
pub fn push_rivals(text: &mut Vec<u8>, one: &[u8], other: &[u8]) -> Result<(), AllocError>
    ensures { OnOk result (text.new.items ≡ text.old.items ++ rivals one.now other.now) }
{
    push_between(text, one, other, RIVALS_END)?;
    Ok(())
}
