//! Characters by which a hint is found.

ghost use Rattle.std.specs.Prelude.{◌≡◌};
ghost use Rattle.wkt_explain.specs.Hints.{begins_digit, follows_number, is_comma_number, is_quotation, is_wide_blank, mark_hint};

use crate::hints::Hint;

// A typographic quotation mark.
fn is_quotation(bytes: &[u8]) -> bool
    ensures { result ≡ is_quotation bytes.now }
{
    bytes.starts_with(b"\xe2\x80\x9c")
        || bytes.starts_with(b"\xe2\x80\x9d")
        || bytes.starts_with(b"\xe2\x80\x9e")
        || bytes.starts_with(b"\xe2\x80\x98")
        || bytes.starts_with(b"\xe2\x80\x99")
        || bytes.starts_with(b"\xe2\x80\x9a")
        || bytes.starts_with(b"\xc2\xab")
        || bytes.starts_with(b"\xc2\xbb")
}

// A no-break space, or another character that looks like a blank or like nothing.
fn is_wide_blank(bytes: &[u8]) -> bool
    ensures { result ≡ is_wide_blank bytes.now }
{
    bytes.starts_with(b"\xc2\xa0")
        || bytes.starts_with(b"\xe2\x80\xaf")
        || bytes.starts_with(b"\xe2\x80\x89")
        || bytes.starts_with(b"\xe2\x80\x8b")
        || bytes.starts_with(b"\xef\xbb\xbf")
}

/// The hint for a character that no token begins with.
pub fn mark_hint(bytes: &[u8]) -> Option<Hint>
    ensures { result ≡ mark_hint bytes.now }
{
    if is_quotation(bytes) {
        return Some(Hint::Quotation);
    }
    if is_wide_blank(bytes) {
        return Some(Hint::WideBlank);
    }
    if bytes.starts_with(b">") {
        return Some(Hint::Mail);
    }
    None
}

fn begins_digit(bytes: &[u8]) -> bool
    ensures { result ≡ begins_digit bytes.now }
{
    let Some((first, _)) = bytes.split_first() else {
        return false;
    };
    first.is_ascii_digit()
}

// Whether a digit and a comma stand before the place.
fn follows_number(text: &[u8], place: usize) -> bool
    ensures { result ≡ follows_number text.now place }
{
    if place < 2 || text.len() < place {
        return false;
    }
    text[place - 1] == b',' && text[place - 2].is_ascii_digit()
}

/// Whether the word at the place looks like the decimals of the number before it.
pub fn is_comma_number(word: &[u8], text: &[u8], place: usize) -> bool
    ensures { result ≡ is_comma_number word.now text.now place }
{
    begins_digit(word) && follows_number(text, place)
}
