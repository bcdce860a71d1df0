//! The characters of some bytes.

ghost use Rattle.std.specs.Prelude.{◌≡◌, ◌<◌, ◌≤◌, ◌∷◌, ◌+◌, [], drop, length, MatchOption};
ghost use Rattle.std.specs.Str.{is_utf8};
ghost use Rattle.wkt_explain.specs.Characters.{chars, first_len, is_wide};

use std::str::from_utf8;

fn is_text(bytes: &[u8]) -> bool
    ensures { result ≡ is_utf8 bytes.now }
{
    match from_utf8(bytes) {
        Ok(_) => true,
        Err(_) => false,
    }
}

// Whether this many leading bytes are UTF-8.
fn is_wide(bytes: &[u8], count: usize) -> bool
    ensures { result ≡ is_wide count bytes.now }
{
    if bytes.len() < count {
        return false;
    }
    is_text(&bytes[..count])
}

// The number of bytes of the first character.
#[tactic(auto, unfolding(crate::specs::Characters::first_len))]
pub(crate) fn first_len(bytes: &[u8]) -> usize
    requires { 0 < length bytes.now }
    ensures { result ≡ first_len bytes.now }
{
    if bytes[0] < 128 {
        return 1;
    }
    if is_wide(bytes, 2) {
        return 2;
    }
    if is_wide(bytes, 3) {
        return 3;
    }
    if is_wide(bytes, 4) {
        return 4;
    }
    1
}

/// The first character, and the bytes after it.
pub(crate) fn split_char(bytes: &[u8]) -> Option<(&[u8], &[u8])>
    ensures { MatchOption result (bytes.now ≡ []) (λ p. (chars bytes.now ≡ p.0.now ∷ chars p.1.now) × (length p.1.now < length bytes.now)) }
{
    if bytes.is_empty() {
        return None;
    }
    let len = first_len(bytes);
    Some(bytes.split_at(len))
}

/// The number of characters.
pub(crate) fn count_chars(bytes: &[u8]) -> usize
    ensures count { result ≡ length (chars bytes.now) }
    ensures within { result ≤ length bytes.now }
{
    let mut rest = bytes;
    let mut count = 0;
    while let Some((_, others)) = split_char(rest) {
        count += 1;
        rest = others;
    }
    count
}

/// The bytes after this many characters.
pub(crate) fn after_chars(bytes: &[u8], most: usize) -> &[u8]
    ensures { chars result.now ≡ drop most (chars bytes.now) }
{
    let mut rest = bytes;
    let mut left = most;
    while left > 0 {
        let Some((_, others)) = split_char(rest) else {
            return rest;
        };
        rest = others;
        left -= 1;
    }
    rest
}
