//! Texts and their parts, where letters A to Z match in either case.

ghost use Rattle.std.specs.Prelude.{◌↔◌, IsTrue, IfOk};
ghost use Rattle.crs_value.specs.Parts.{IsAlike, BeginsWith, HasPart};

use memchr::memmem;
use std::alloc::{AllocError, Global};

/// The length up to which a part is compared at each position of a text.
const SHORT: usize = 32;

/// Whether two texts are the same; letters A to Z match in either case.
pub fn is_alike(one: &[u8], other: &[u8]) -> bool
    ensures { IsTrue result ↔ IsAlike one.now other.now }
{
    one.eq_ignore_ascii_case(other)
}

/// Whether the text contains the part; letters A to Z match in either case. The time is linear: a long part is sought in copies in
/// small letters. If there is no memory for these, it is compared at each position.
pub fn has_part(alloc: Global, text: &[u8], part: &[u8]) -> bool
    ensures { IsTrue result ↔ HasPart part.now text.now }
{
    if part.len() <= SHORT || text.len() < part.len() {
        return begins_somewhere(text, part);
    }
    match lowered_has(alloc, text, part) {
        Ok(has) => has,
        Err(_) => begins_somewhere(text, part),
    }
}

fn lowered_has(alloc: Global, text: &[u8], part: &[u8]) -> Result<bool, AllocError>
    ensures { IfOk result (λ has. IsTrue has ↔ HasPart part.now text.now) }
{
    let text = text.to_ascii_lowercase(alloc)?;
    let part = part.to_ascii_lowercase(alloc)?;
    Ok(memmem::find(&text, &part).is_some())
}

fn begins_somewhere(text: &[u8], part: &[u8]) -> bool
    ensures { IsTrue result ↔ HasPart part.now text.now }
{
    let mut rest = text;
    while let Some((_, others)) = rest.split_first() {
        if begins_with(rest, part) {
            return true;
        }
        rest = others;
    }
    part.is_empty()
}

fn begins_with(text: &[u8], part: &[u8]) -> bool
    ensures { IsTrue result ↔ BeginsWith part.now text.now }
{
    if text.len() < part.len() {
        return false;
    }
    text[..part.len()].eq_ignore_ascii_case(part)
}
