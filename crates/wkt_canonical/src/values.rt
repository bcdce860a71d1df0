//! Nodes with a single text.

ghost use Rattle.std.specs.Prelude.{IfSome};
ghost use Rattle.wkt_grammar.specs.Trees.{value_tree};
ghost use Rattle.wkt_canonical.specs.Reads.{ReadsMaybe, ReadsWithin, any};

use crate::front::{behind, opens};
use crate::leaves::text;
use wkt_grammar::Keyword;

/// The rest after such a node, read from after its opening delimiter.
pub(crate) fn value(bytes: &[u8]) -> Option<&[u8]>
    ensures { IfSome result (λ rest. ReadsWithin any value_tree bytes.now rest.now) }
{
    let rest = text(bytes)?;
    let rest = behind(rest, b"]")?;
    Some(rest)
}

/// The rest after such a node with this keyword, if it comes next.
#[inline(always)]
pub(crate) fn maybe_value(keyword: Keyword, bytes: &[u8]) -> Option<&[u8]>
    ensures { IfSome result (λ rest. ReadsMaybe any (value_tree keyword) bytes.now rest.now) }
{
    let Some(inside) = opens(bytes, keyword) else {
        return Some(bytes);
    };
    let rest = value(inside)?;
    Some(rest)
}
