//! Words that name keys.

ghost use Rattle.std.specs.Prelude.{◌≡◌, ◌↔◌, ◌++◌, ◌∷◌, ℕ, List, IsTrue};
ghost use Rattle.reg_report.specs.Conflicts.{bytes_of};
ghost use Rattle.crs_value.specs.Parts.{IsAlike};
ghost use Rattle.reg_keys.specs.Words.{NamesKey};

use crs_value::Key;
use crs_value::search::is_alike;

/// Whether the word is the key: its authority, a colon, and its code. Letters A to Z of the authority match in either
/// case.
pub fn names_key(word: &[u8], key: &Key) -> bool
    ensures { IsTrue result ↔ NamesKey word.now (bytes_of key.now) }
{
    is_key_text(word, key.authority.as_bytes(), key.code.as_bytes())
}

fn is_key_text(word: &[u8], authority: &[u8], code: &[u8]) -> bool
    ensures { IsTrue result ↔ ((front : List ℕ) × IsAlike front authority.now × (word.now ≡ front ++ 58 ∷ code.now)) }
{
    if word.len() < authority.len() {
        return false;
    }
    let (front, back) = word.split_at(authority.len());
    let Some(rest) = back.strip_prefix(b":".as_slice()) else {
        return false;
    };
    is_alike(front, authority) && rest == code
}
