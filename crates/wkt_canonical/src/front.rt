//! The front of a text.

ghost use Rattle.std.specs.Prelude.{◌≡◌, ◌++◌, IfSome};
ghost use Rattle.wkt_canonical.specs.Reads.{beginning, opening};

use wkt_grammar::Keyword;

/// The rest after the word, if the text begins with it.
#[inline(always)]
pub(crate) fn behind<'a>(text: &'a [u8], word: &[u8]) -> Option<&'a [u8]>
    ensures { IfSome result (λ rest. text.now ≡ word.now ++ rest.now) }
{
    let Some(rest) = text.strip_prefix(word) else {
        return None;
    };
    Some(rest)
}

/// The rest after the keyword and the opening delimiter of a node, if the text begins with them.
#[inline(always)]
pub(crate) fn begins<'a>(text: &'a [u8], keyword: Keyword) -> Option<&'a [u8]>
    ensures { IfSome result (λ rest. text.now ≡ beginning keyword ++ rest.now) }
{
    let rest = behind(text, keyword.spelling())?;
    let rest = behind(rest, b"[")?;
    Some(rest)
}

/// The rest after a comma and then the keyword and the opening delimiter of a node, if the text begins with them.
#[inline(always)]
pub(crate) fn opens<'a>(text: &'a [u8], keyword: Keyword) -> Option<&'a [u8]>
    ensures { IfSome result (λ rest. text.now ≡ opening keyword ++ rest.now) }
{
    // If the node is absent, the next one mostly has another first letter.
    if text.get(1) != keyword.spelling().first() {
        return None;
    }
    let rest = behind(text, b",")?;
    let rest = begins(rest, keyword)?;
    Some(rest)
}
