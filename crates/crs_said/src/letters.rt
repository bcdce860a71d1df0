//! The letters of names, and the places of their parts.

ghost use Rattle.std.specs.Prelude.{◌≡◌, ◌++◌, ◌≤◌, length, None, IfOk, OnOk};
ghost use Rattle.std.specs.Option.{option_map};
ghost use Rattle.crs_said.specs.Letters.{is_kept, kept_of, ends, letters, place, behind_last};

use crs_exact::{after, begins};
use std::alloc::{AllocError, Global};

/// Letters and digits alone, in lower case, without `height` or `depth` at the end.
pub(crate) fn letters(alloc: Global, name: &[u8]) -> Result<Vec<u8>, AllocError>
    ensures { IfOk result (λ text. text.items ≡ letters name.now) }
{
    let mut text = Vec::with_capacity(alloc, name.len())?;
    for byte in name {
        push_kept(&mut text, *byte)?;
    }
    let all = text.len();
    if ends(&text, b"height") {
        text.truncate(all.saturating_sub(6));
        return Ok(text);
    }
    if ends(&text, b"depth") {
        text.truncate(all.saturating_sub(5));
    }
    Ok(text)
}

fn push_kept(text: &mut Vec<u8>, byte: u8) -> Result<(), AllocError>
    ensures { OnOk result (text.new.items ≡ text.old.items ++ kept_of byte) }
{
    if is_kept(byte) {
        text.push(byte.to_ascii_lowercase())?;
    }
    Ok(())
}

fn is_kept(byte: u8) -> bool
    ensures { result ≡ is_kept byte }
{
    (48 <= byte && byte <= 57)
        || (65 <= byte && byte <= 90)
        || (97 <= byte && byte <= 122)
        || 128 <= byte
}

fn ends(text: &[u8], part: &[u8]) -> bool
    ensures { result ≡ ends part.now text.now }
{
    begins(after(text, text.len().saturating_sub(part.len())), part)
}

/// What stands before the first place of the part.
pub(crate) fn place(name: &[u8], part: &[u8]) -> usize
    ensures value { result ≡ place part.now name.now }
    ensures inside { result ≤ length name.now }
{
    let mut rest = name;
    let mut count = 0;
    while let Some((_, others)) = rest.split_first() {
        if begins(rest, part) {
            return count;
        }
        rest = others;
        count += 1;
    }
    count
}

/// What follows the last place of the part.
pub(crate) fn behind_last<'a>(name: &'a [u8], part: &[u8]) -> Option<&'a [u8]>
    ensures { option_map (λ rest. rest.now) result ≡ behind_last part.now name.now None }
{
    let mut found = None;
    let mut rest = name;
    while let Some((_, others)) = rest.split_first() {
        if begins(rest, part) {
            found = Some(after(rest, part.len()));
        }
        rest = others;
    }
    found
}
