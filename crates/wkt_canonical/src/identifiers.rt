//! Identifiers, and nodes with only a name and identifiers.

ghost use Rattle.std.specs.Prelude.{IfSome};
ghost use Rattle.wkt_grammar.specs.declared.table.Keyword.TheVariants as keywords;
ghost use Rattle.wkt_grammar.specs.Trees.{ident_tree, named_tree, code_tree};
ghost use Rattle.wkt_canonical.specs.Reads.{ReadsEach, ReadsMaybe, ReadsOne, ReadsWithin, ReadsIdentifier, ReadsIdentifiers, any};

use crate::front::{behind, opens};
use crate::leaves::{code, code_behind_comma, content, text};
use crate::node::{CanonicalNode, each};
use crate::values::maybe_value;
use crs_part::{Ident, Named};
use wkt_grammar::Keyword;

/// The authority and the code of an identifier, without their marks. A number is compared as written.
#[derive(Clone, Copy)]
pub struct Identifier<'a> {
    pub authority: &'a [u8],
    pub code: &'a [u8],
}

/// An identifier, and the rest after it, read from after its opening delimiter.
fn one_identifier(bytes: &[u8]) -> Option<(Identifier<'_>, &[u8])>
    ensures { IfSome result (λ found. ReadsIdentifier found.0 bytes.now found.1.now) }
{
    let (authority, rest) = content(bytes)?;
    let (code, rest) = code(rest)?;
    // Most identifiers have no more.
    if let Some(rest) = behind(rest, b"]") {
        return Some((Identifier { authority, code }, rest));
    }
    let rest = version(rest);
    let rest = maybe_value(Keyword::Citation, rest)?;
    let rest = maybe_value(Keyword::Uri, rest)?;
    let rest = behind(rest, b"]")?;
    Some((Identifier { authority, code }, rest))
}

/// The first of the next identifiers, and the rest after all of them.
pub(crate) fn identifiers(bytes: &[u8]) -> Option<(Option<Identifier<'_>>, &[u8])>
    ensures { IfSome result (λ found. ReadsIdentifiers found.0 bytes.now found.1.now) }
{
    let Some(inside) = opens(bytes, Keyword::Identifier) else {
        return Some((None, bytes));
    };
    let (first, rest) = one_identifier(inside)?;
    let rest = each::<Ident>(rest)?;
    Some((Some(first), rest))
}

impl CanonicalNode for Ident {
    ghost tree = { ident_tree };

    ghost test = { any };

    ghost keyword = { keywords.Identifier };

    fn keyword() -> Keyword {
        Keyword::Identifier
    }

    fn inside(bytes: &[u8]) -> Option<&[u8]> {
        let (_, rest) = one_identifier(bytes)?;
        Some(rest)
    }
}

/// The rest after a version, if there is one.
fn version(bytes: &[u8]) -> &[u8]
    ensures { ReadsMaybe any code_tree bytes.now result.now }
{
    match code_behind_comma(bytes) {
        Some(rest) => rest,
        None => bytes,
    }
}

/// The rest after a node with a name and identifiers, read from after its opening delimiter.
fn named(bytes: &[u8]) -> Option<&[u8]>
    ensures { IfSome result (λ rest. ReadsWithin any named_tree bytes.now rest.now) }
{
    let rest = text(bytes)?;
    let rest = each::<Ident>(rest)?;
    let rest = behind(rest, b"]")?;
    Some(rest)
}

/// A member of an ensemble.
impl CanonicalNode for Named {
    ghost tree = { named_tree keywords.Member };

    ghost test = { any };

    ghost keyword = { keywords.Member };

    fn keyword() -> Keyword {
        Keyword::Member
    }

    fn inside(bytes: &[u8]) -> Option<&[u8]> {
        let rest = named(bytes)?;
        Some(rest)
    }
}

/// The rest after the method of a conversion.
pub(crate) fn method(bytes: &[u8]) -> Option<&[u8]>
    ensures { IfSome result (λ rest. ReadsOne any (named_tree keywords.Method) bytes.now rest.now) }
{
    let inside = opens(bytes, Keyword::Method)?;
    let rest = named(inside)?;
    Some(rest)
}

/// The rest after the next geoid models.
pub(crate) fn geoid_models(bytes: &[u8]) -> Option<&[u8]>
    ensures { IfSome result (λ rest. ReadsEach any (named_tree keywords.GeoidModel) bytes.now rest.now) }
{
    let mut rest = bytes;
    for _ in 0..bytes.len() {
        let Some(inside) = opens(rest, Keyword::GeoidModel) else {
            return Some(rest);
        };
        rest = named(inside)?;
    }
    None
}
