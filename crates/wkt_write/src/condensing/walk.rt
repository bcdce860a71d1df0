//! The walk over a text.

ghost use Rattle.std.specs.Prelude.{◌≡◌, ◌≤◌, true, length, IfSome};
ghost use Rattle.wkt_write.specs.Condensed.{IsCondensed};
ghost use Rattle.wkt_write.specs.Pieces.{IsCopied};
ghost use Rattle.wkt_write.specs.CondensedLaw.{IsReadAs};

use crate::condensing::numerals::{odd_len, respell};
use crate::condensing::pieces::next_piece;
use std::alloc::Global;
use wkt_tree::MAX_TEXT;

/// The number of bytes by which the condensed text may be longer than the text.
const SPARE: usize = 64;

/// The text without blanks beside delimiters, commas and its ends, and with each number in its canonical spelling; none if
/// there are other blanks, if numbers make it much longer, or if memory runs out. Each value that it spells is also spelled
/// by the text.
pub fn condense(alloc: Global, text: &[u8]) -> Option<Vec<u8>>
    ensures is { IfSome result (λ condensed. IsCondensed text.now condensed.items) }
    ensures reads { IfSome result (λ condensed. IsReadAs text.now condensed.items) }
{
    if text.len() > MAX_TEXT {
        return None;
    }
    go_over(alloc, text)
}

/// Kept bytes are copied in runs: the bytes from `from` up to `at` are still to be copied.
fn go_over(alloc: Global, text: &[u8]) -> Option<Vec<u8>>
    ensures { IfSome result (λ condensed. IsCondensed text.now condensed.items) }
{
    let mut condensed = Vec::with_capacity(alloc, room(text)).ok()?;
    let mut shut = true;
    let mut from = 0;
    let mut at = 0;
    while at < text.len() {
        let (_, rest) = text.split_at(at);
        if let Some(digits) = odd_len(shut, rest) {
            let (numeral, _) = rest.split_at(digits);
            if !copy(&mut condensed, text, from, at) || !respell(&mut condensed, numeral) {
                return None;
            }
            shut = false;
            at += digits;
            from = at;
        } else {
            let piece = next_piece(shut, rest)?;
            if piece.kept {
                at += piece.len;
            } else {
                if !copy(&mut condensed, text, from, at) {
                    return None;
                }
                at += piece.len;
                from = at;
            }
            shut = piece.shut;
        }
    }
    if copy(&mut condensed, text, from, at) {
        Some(condensed)
    } else {
        None
    }
}

/// The most bytes of the condensed text, without its last number. A text with many `1e40` would take ten times its bytes.
#[inline(always)]
fn room(text: &[u8]) -> usize {
    text.len().saturating_add(SPARE)
}

/// Appends the bytes from one place up to another, or returns false if there is no room for them.
#[inline(always)]
fn copy(condensed: &mut Vec<u8>, text: &[u8], from: usize, at: usize) -> bool
    requires order { from ≤ at }
    requires within { at ≤ length text.now }
    ensures { result ≡ true → IsCopied condensed.old.items text.now from at condensed.new.items }
{
    let (_, rest) = text.split_at(from);
    let (kept, _) = rest.split_at(at - from);
    if kept.len() > room(text).saturating_sub(condensed.len()) {
        return false;
    }
    condensed.extend_from_slice(kept).is_ok()
}
