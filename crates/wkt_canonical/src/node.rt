//! Nodes, after their opening delimiters.

ghost use Rattle.std.specs.Prelude.{◌≡◌, Bool, IfSome};
ghost use Rattle.wkt_grammar.specs.declared.table.Keyword.{Keyword};
ghost use Rattle.wkt_grammar.specs.Bare.{Bare};
ghost use Rattle.wkt_canonical.specs.Reads.{ReadsOne, ReadsMaybe, ReadsEach, ReadsSome, ReadsInside};

use crate::front::opens;
use wkt_grammar::Keyword;

/// A value whose text is a node with one keyword.
pub(crate) trait CanonicalNode {
    ghost tree: { Self → Bare };

    ghost test: { Self → Bool };

    ghost keyword: { Keyword };

    /// The keyword of the node.
    fn keyword() -> Keyword
        ensures { result ≡ keyword };

    /// The rest after the node, read from after its opening delimiter.
    fn inside(text: &[u8]) -> Option<&[u8]>
        ensures { IfSome result (λ rest. ReadsInside test tree keyword text.now rest.now) };
}

/// The rest after a required node.
pub(crate) fn one<T: CanonicalNode>(text: &[u8]) -> Option<&[u8]>
    ensures { IfSome result (λ rest. ReadsOne T.test T.tree text.now rest.now) }
{
    let inside = opens(text, T::keyword())?;
    let rest = T::inside(inside)?;
    Some(rest)
}

/// The rest after an optional node.
pub(crate) fn maybe<T: CanonicalNode>(text: &[u8]) -> Option<&[u8]>
    ensures { IfSome result (λ rest. ReadsMaybe T.test T.tree text.now rest.now) }
{
    let Some(inside) = opens(text, T::keyword()) else {
        return Some(text);
    };
    let rest = T::inside(inside)?;
    Some(rest)
}

/// The rest after the next nodes of this kind.
pub(crate) fn each<T: CanonicalNode>(text: &[u8]) -> Option<&[u8]>
    ensures { IfSome result (λ rest. ReadsEach T.test T.tree text.now rest.now) }
{
    let mut rest = text;
    for _ in 0..text.len() {
        let Some(inside) = opens(rest, T::keyword()) else {
            return Some(rest);
        };
        rest = T::inside(inside)?;
    }
    None
}

/// The rest after the next nodes of this kind, at least one.
pub(crate) fn some<T: CanonicalNode>(text: &[u8]) -> Option<&[u8]>
    ensures { IfSome result (λ rest. ReadsSome T.test T.tree text.now rest.now) }
{
    let rest = one::<T>(text)?;
    let rest = each::<T>(rest)?;
    Some(rest)
}
