//! Words in which the name of an office stands in the place of its UUID, as tables show ids.

ghost use Rattle.std.specs.Prelude.{◌≡◌, IfOk, option_map};
ghost use Rattle.std.specs.Char.{is_ascii_digit};
ghost use Rattle.std.specs.List.{find, list_all};
ghost use Rattle.csv_table.specs.Typed.{is_count, names_office, typed};

use crate::offices::names::Name;
use crate::offices::standing::stands;
use std::alloc::{AllocError, Global};

/// The word with the UUID of an office in the place of its name, if this is the name of one office, and a colon and digits follow.
pub fn typed(alloc: Global, names: &[Name], word: &[u8]) -> Result<Option<Vec<u8>>, AllocError>
    ensures { IfOk result (λ r. option_map (λ w. w.items) r ≡ typed names.now word.now) }
{
    let Some(name) = named_in(names, word) else {
        return Ok(None);
    };
    let mut text = Vec::new(alloc);
    text.extend_from_slice(&name.office)?;
    text.extend_from_slice(word.get(name.name.len()..).unwrap_or(&[]))?;
    Ok(Some(text))
}

// The first row whose office the word names.
fn named_in<'n>(names: &'n [Name], word: &[u8]) -> Option<&'n Name>
    ensures { option_map (λ n. n.now) result ≡ find (names_office names.now word.now) names.now }
{
    for name in names {
        if names_office(names, word, name) {
            return Some(name);
        }
    }
    None
}

fn names_office(names: &[Name], word: &[u8], name: &Name) -> bool
    ensures { result ≡ names_office names.now word.now name.now }
{
    match word.strip_prefix(name.name.as_slice()) {
        Some(rest) => is_count(rest) && stands(names, name),
        None => false,
    }
}

fn is_count(text: &[u8]) -> bool
    ensures { result ≡ is_count text.now }
{
    let Some((byte, digits)) = text.split_first() else {
        return false;
    };
    if *byte != b':' {
        return false;
    }
    are_digits(digits)
}

fn are_digits(text: &[u8]) -> bool
    ensures { result ≡ list_all is_ascii_digit text.now }
{
    text.iter().all(|byte| is_digit(*byte))
}

fn is_digit(byte: u8) -> bool
    ensures { result ≡ is_ascii_digit byte }
{
    byte.is_ascii_digit()
}
