//! Hidden characters in bytes.

ghost use Rattle.std.specs.Prelude.{◌≡◌};
ghost use Rattle.text_hidden.specs.Bytes.{continues, hidden_if, hidden_from, hidden_of_two, hidden_of_three, hidden_at};

use crate::set::is_hidden_code;

/// A hidden character in some bytes.
#[derive(Clone, Copy, Debug, PartialEq, Eq)]
pub struct HiddenCharacter {
    /// Its code.
    pub number: u32,
    /// The number of bytes after its first one.
    pub more: usize,
}

// Whether a byte continues a character.
fn continues(byte: u8) -> bool
    ensures { result ≡ continues byte }
{
    128 <= byte && byte <= 191
}

// The character with this code, if it is hidden.
fn hidden_if(code: u32, more: usize) -> Option<HiddenCharacter>
    ensures { result ≡ hidden_if code more }
{
    if is_hidden_code(code) {
        return Some(HiddenCharacter { number: code, more });
    }
    None
}

// The same, if it is at least the first one of so many bytes.
fn hidden_from(first: u32, code: u32, more: usize) -> Option<HiddenCharacter>
    ensures { result ≡ hidden_from first code more }
{
    if first <= code {
        return hidden_if(code, more);
    }
    None
}

// Of two bytes: this one, and the first of the others.
fn hidden_of_two(byte: u8, rest: &[u8]) -> Option<HiddenCharacter>
    ensures { result ≡ hidden_of_two byte rest.now }
{
    let Some((second, _)) = rest.split_first() else {
        return None;
    };
    if !continues(*second) {
        return None;
    }
    let code = u32::from(byte % 32) * 64 + u32::from(*second % 64);
    hidden_from(0x80, code, 1)
}

// Of three bytes: this one, and the first two of the others.
fn hidden_of_three(byte: u8, rest: &[u8]) -> Option<HiddenCharacter>
    ensures { result ≡ hidden_of_three byte rest.now }
{
    let Some((second, others)) = rest.split_first() else {
        return None;
    };
    let Some((third, _)) = others.split_first() else {
        return None;
    };
    if !continues(*second) || !continues(*third) {
        return None;
    }
    let code = u32::from(byte % 16) * 4096 + u32::from(*second % 64) * 64 + u32::from(*third % 64);
    hidden_from(0x800, code, 2)
}

/// The character with which a text in UTF-8 begins, if it is hidden: `byte` is the first byte of the text, and `rest` has the others.
pub fn hidden_at(byte: u8, rest: &[u8]) -> Option<HiddenCharacter>
    ensures { result ≡ hidden_at byte rest.now }
{
    if byte < 128 {
        return hidden_if(u32::from(byte), 0);
    }
    if byte < 192 {
        return None;
    }
    if byte < 224 {
        return hidden_of_two(byte, rest);
    }
    if byte < 240 {
        return hidden_of_three(byte, rest);
    }
    None
}
