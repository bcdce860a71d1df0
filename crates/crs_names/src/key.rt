//! Identifiers with odd blanks or hidden characters, of an authority that is nearly a known one, or with a padded number.

ghost use Rattle.std.specs.Prelude.{◌≡◌};
ghost use Rattle.std.specs.List.{list_all};
ghost use Rattle.std.specs.Str.{bytes_eq};
ghost use Rattle.crs_value.specs.Keys.{text_of};
ghost use Rattle.crs_exact.specs.Said.{sentence, piece_said};
ghost use Rattle.crs_names.specs.Key.{is_digit, is_padded, is_code_odd, is_same_letter, is_swap, is_slip, near, is_known, is_near_known, is_id_odd, id_what, id_said};

use crate::name::is_text_odd;
use crs_exact::{END, Finding, Piece};
use crs_part::{Ident, NumberOrText, same_word};

/// The sentence of an identifier.
pub(crate) fn id_said(id: &Ident) -> Finding<'_>
    ensures { sentence result ≡ id_said id.now }
{
    Finding::of_words([
        Piece::Text(b"the identifier \""),
        Piece::Text(id.authority.as_bytes()),
        Piece::Text(b"\", \""),
        code_said(&id.code),
        Piece::Text(b"\" "),
        Piece::Text(id_what(id)),
        END,
        END,
        END,
        END,
        END,
        END,
    ])
}

fn code_said(code: &NumberOrText) -> Piece<'_>
    ensures { piece_said result ≡ text_of code.now }
{
    match code {
        NumberOrText::Number(value) => Piece::Number(value),
        NumberOrText::Text(text) => Piece::Text(text.as_bytes()),
    }
}

fn id_what(id: &Ident) -> &'static [u8]
    ensures { result.now ≡ id_what id.now }
{
    if is_near_known(id.authority.as_bytes()) {
        return b"has an authority that is nearly a known one: EPSG, ESRI, IGNF, OGC, IAU_2015, NKG or PROJ";
    }
    b"is empty in part, has odd blanks or hidden characters, or is a number with a sign or leading zeros"
}

/// Whether the identifier is such an identifier.
pub(crate) fn is_id_odd(id: &Ident) -> bool
    ensures { result ≡ is_id_odd id.now }
{
    is_text_odd(id.authority.as_bytes())
        || is_code_odd(&id.code)
        || is_near_known(id.authority.as_bytes())
}

fn is_code_odd(code: &NumberOrText) -> bool
    ensures { result ≡ is_code_odd code.now }
{
    match code {
        NumberOrText::Number(value) => value.coefficient() < 0,
        NumberOrText::Text(text) => is_text_odd(text.as_bytes()) || is_padded(text.as_bytes()),
    }
}

// A sign or a zero, and more digits.
fn is_padded(text: &[u8]) -> bool
    ensures { result ≡ is_padded text.now }
{
    let Some((first, others)) = text.split_first() else {
        return false;
    };
    (*first == b'+' || *first == b'-' || *first == b'0') && others.len() != 0 && are_digits(others)
}

fn are_digits(text: &[u8]) -> bool
    ensures { result ≡ list_all is_digit text.now }
{
    text.iter().all(|byte| is_digit(*byte))
}

fn is_digit(byte: u8) -> bool
    ensures { result ≡ is_digit byte }
{
    48 <= byte && byte <= 57
}

// Whether the authority is none of the known ones, and differs from one by letter case, or from a longer one by a slip.
fn is_near_known(authority: &[u8]) -> bool
    ensures { result ≡ is_near_known authority.now }
{
    !is_known(authority)
        && (near(b"EPSG", authority)
            || near(b"ESRI", authority)
            || near(b"IGNF", authority)
            || near(b"IAU_2015", authority)
            || near(b"PROJ", authority)
            || same_word(b"OGC", authority)
            || same_word(b"NKG", authority))
}

fn is_known(authority: &[u8]) -> bool
    ensures { result ≡ is_known authority.now }
{
    is_same(authority, b"EPSG")
        || is_same(authority, b"ESRI")
        || is_same(authority, b"IGNF")
        || is_same(authority, b"IAU_2015")
        || is_same(authority, b"PROJ")
        || is_same(authority, b"OGC")
        || is_same(authority, b"NKG")
}

// Whether two words differ, apart from letter case, by at most one letter changed, left out or put in, or two neighbours swapped.
fn near(known: &[u8], given: &[u8]) -> bool
    ensures { result ≡ near known.now given.now }
{
    let mut wanted = known;
    let mut rest = given;
    while let (Some((a, others)), Some((b, more))) = (wanted.split_first(), rest.split_first()) {
        if !is_same_letter(*a, *b) {
            return is_slip(wanted, others, rest, more);
        }
        wanted = others;
        rest = more;
    }
    wanted.len() <= 1 && rest.len() <= 1
}

// Whether the rest is the same after one letter of either word, or of both, or after two that are swapped.
fn is_slip(wanted: &[u8], others: &[u8], rest: &[u8], more: &[u8]) -> bool
    ensures { result ≡ is_slip wanted.now others.now rest.now more.now }
{
    same_word(others, more)
        || same_word(others, rest)
        || same_word(wanted, more)
        || is_swap(wanted, rest)
}

fn is_swap(wanted: &[u8], rest: &[u8]) -> bool
    ensures { result ≡ is_swap wanted.now rest.now }
{
    let Some((a, wanted)) = wanted.split_first() else {
        return false;
    };
    let Some((b, wanted)) = wanted.split_first() else {
        return false;
    };
    let Some((c, rest)) = rest.split_first() else {
        return false;
    };
    let Some((d, rest)) = rest.split_first() else {
        return false;
    };
    is_same_letter(*a, *d) && is_same_letter(*b, *c) && same_word(wanted, rest)
}

fn is_same_letter(a: u8, b: u8) -> bool
    ensures { result ≡ is_same_letter a b }
{
    a.to_ascii_lowercase() == b.to_ascii_lowercase()
}

fn is_same(a: &[u8], b: &[u8]) -> bool
    ensures { result ≡ bytes_eq a.now b.now }
{
    a == b
}
