//! Texts, and numbers or texts.

ghost use Rattle.std.specs.Prelude.{IfSome};
ghost use Rattle.wkt_grammar.specs.Trees.{text_tree, code_tree};
ghost use Rattle.wkt_canonical.specs.Reads.{ReadsFirst, ReadsOne, ReadsText, ReadsCode, any};

use crate::ends::end_of_text;
use crate::front::behind;
use crate::numerals::number;

/// A text between marks, and the rest after it.
pub(crate) fn content(bytes: &[u8]) -> Option<(&[u8], &[u8])>
    ensures { IfSome result (λ found. ReadsText found.0.now bytes.now found.1.now) }
{
    let inside = behind(bytes, b"\"")?;
    let mark = end_of_text(inside)?;
    Some((&inside[..mark], &inside[mark + 1..]))
}

/// The rest after a text between marks.
pub(crate) fn text(bytes: &[u8]) -> Option<&[u8]>
    ensures { IfSome result (λ rest. ReadsFirst any text_tree bytes.now rest.now) }
{
    let inside = behind(bytes, b"\"")?;
    let mark = end_of_text(inside)?;
    Some(&inside[mark + 1..])
}

/// A code after its comma, which is a number or a text, and the rest after it. A number is compared as written.
pub(crate) fn code(bytes: &[u8]) -> Option<(&[u8], &[u8])>
    ensures { IfSome result (λ found. ReadsCode found.0.now bytes.now found.1.now) }
{
    let inside = behind(bytes, b",")?;
    if inside.first() == Some(&b'"') {
        let (content, rest) = content(inside)?;
        return Some((content, rest));
    }
    let rest = number(inside)?;
    let (digits, _) = inside.split_at(inside.len() - rest.len());
    Some((digits, rest))
}

/// The rest after a code after its comma.
pub(crate) fn code_behind_comma(bytes: &[u8]) -> Option<&[u8]>
    ensures { IfSome result (λ rest. ReadsOne any code_tree bytes.now rest.now) }
{
    let (_, rest) = code(bytes)?;
    Some(rest)
}
