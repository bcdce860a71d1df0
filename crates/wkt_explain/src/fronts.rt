//! The front of a text that is none.

ghost use Rattle.std.specs.Prelude.{◌≡◌};
ghost use Rattle.std.specs.List.{prefix_len};
ghost use Rattle.wkt_tree.specs.Bytes.{is_blank, is_word_byte};
ghost use Rattle.wkt_explain.specs.Hints.{begins_heading, begins_letter, begins_option, begins_separator, behind_blanks, behind_word, front_hint, front_word, is_code, is_colon_word, is_last_word, is_own_file, is_proj_string, is_row, is_urn, paste_hint, start_hint};

use crate::hints::Hint;
use crate::path::{is_blank, is_word_byte};

fn blank_len(bytes: &[u8]) -> usize
    ensures { result ≡ prefix_len is_blank bytes.now }
{
    bytes.iter().take_while(|b| is_blank(**b)).count()
}

fn word_len(bytes: &[u8]) -> usize
    ensures { result ≡ prefix_len is_word_byte bytes.now }
{
    bytes.iter().take_while(|b| is_word_byte(**b)).count()
}

/// The text behind the blanks at its front.
pub fn behind_blanks(text: &[u8]) -> &[u8]
    ensures { result.now ≡ behind_blanks text.now }
{
    let (_, rest) = text.split_at(blank_len(text));
    rest
}

/// The word at the front.
pub fn front_word(bytes: &[u8]) -> &[u8]
    ensures { result.now ≡ front_word bytes.now }
{
    let (word, _) = bytes.split_at(word_len(bytes));
    word
}

fn behind_word(bytes: &[u8]) -> &[u8]
    ensures { result.now ≡ behind_word bytes.now }
{
    let (_, rest) = bytes.split_at(word_len(bytes));
    rest
}

fn begins_letter(bytes: &[u8]) -> bool
    ensures { result ≡ begins_letter bytes.now }
{
    let Some((first, _)) = bytes.split_first() else {
        return false;
    };
    first.is_ascii_alphabetic()
}

fn begins_option(bytes: &[u8]) -> bool
    ensures { result ≡ begins_option bytes.now }
{
    let Some((first, rest)) = bytes.split_first() else {
        return false;
    };
    *first == b'+' && begins_letter(rest)
}

fn is_proj_string(bytes: &[u8]) -> bool
    ensures { result ≡ is_proj_string bytes.now }
{
    begins_option(bytes) || bytes.starts_with(b"proj=") || bytes.starts_with(b"init=")
}

// Projinfo prints such a line before each text.
fn begins_heading(bytes: &[u8]) -> bool
    ensures { result ≡ begins_heading bytes.now }
{
    bytes.starts_with(b"WKT2:")
        || bytes.starts_with(b"WKT1:")
        || bytes.starts_with(b"PROJ string:")
        || bytes.starts_with(b"PROJ.4 string:")
        || bytes.starts_with(b"PROJJSON:")
}

fn is_last_word(bytes: &[u8]) -> bool
    ensures { result ≡ is_last_word bytes.now }
{
    !front_word(bytes).is_empty() && behind_blanks(behind_word(bytes)).is_empty()
}

fn is_colon_word(bytes: &[u8]) -> bool
    ensures { result ≡ is_colon_word bytes.now }
{
    let Some((first, rest)) = bytes.split_first() else {
        return false;
    };
    *first == b':' && is_last_word(rest)
}

// A code such as `EPSG:4326`.
fn is_code(bytes: &[u8]) -> bool
    ensures { result ≡ is_code bytes.now }
{
    !front_word(bytes).is_empty() && is_colon_word(behind_word(bytes))
}

// The hint for the first bytes of a text that are not blank.
fn start_hint(bytes: &[u8]) -> Option<Hint>
    ensures { result ≡ start_hint bytes.now }
{
    if bytes.is_empty() {
        return Some(Hint::Empty);
    }
    if bytes.starts_with(b"{") {
        return Some(Hint::ProjJson);
    }
    if bytes.starts_with(b"<") {
        return Some(Hint::Gml);
    }
    if is_proj_string(bytes) {
        return Some(Hint::ProjString);
    }
    if begins_heading(bytes) {
        return Some(Hint::Heading);
    }
    if is_code(bytes) {
        return Some(Hint::Code);
    }
    paste_hint(bytes)
}

// A name of OGC.
fn is_urn(bytes: &[u8]) -> bool
    ensures { result ≡ is_urn bytes.now }
{
    bytes.starts_with(b"urn:")
        || bytes.starts_with(b"URN:")
        || bytes.starts_with(b"http:")
        || bytes.starts_with(b"https:")
}

fn begins_separator(bytes: &[u8]) -> bool
    ensures { result ≡ begins_separator bytes.now }
{
    bytes.starts_with(b",") || bytes.starts_with(b";")
}

// A row of a table: a text in quotation marks, or a word and a separator.
fn is_row(bytes: &[u8]) -> bool
    ensures { result ≡ is_row bytes.now }
{
    bytes.starts_with(b"\"")
        || (!front_word(bytes).is_empty() && begins_separator(behind_word(bytes)))
}

// The hint for the first bytes of something else that was pasted.
fn paste_hint(bytes: &[u8]) -> Option<Hint>
    ensures { result ≡ paste_hint bytes.now }
{
    if is_urn(bytes) {
        return Some(Hint::Urn);
    }
    if is_row(bytes) {
        return Some(Hint::Row);
    }
    None
}

/// A register, a summary or a piece, of either version.
pub fn is_own_file(bytes: &[u8]) -> bool
    ensures { result ≡ is_own_file bytes.now }
{
    bytes.starts_with(b"CRSR\x01") || bytes.starts_with(b"CRSR\x02")
}

/// The hint for the front of a text without tokens.
pub fn front_hint(text: &[u8]) -> Option<Hint>
    ensures { result ≡ front_hint text.now }
{
    if text.starts_with(b"\xef\xbb\xbf") {
        return Some(Hint::ByteOrderMark);
    }
    if is_own_file(text) {
        return Some(Hint::OwnFile);
    }
    start_hint(behind_blanks(text))
}
