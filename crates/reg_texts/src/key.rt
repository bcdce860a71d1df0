//! Whether two keys are one, and how keys are written.

ghost use Rattle.std.specs.Prelude.{◌≡◌, ◌↔◌, ◌++◌, ◌∷◌, [], map, IsTrue, OnOk};
ghost use Rattle.reg_report.specs.Keys.{key_bytes};
ghost use Rattle.reg_texts.specs.Listing.{key_text, on_line};
ghost use Rattle.text_hidden.specs.Short.{short};

use reg_report::KeyText;
use std::alloc::{AllocError, Global};
use text_hidden::push_short;

/// Whether both are one key.
pub fn is_same_key(one: &KeyText, other: &KeyText) -> bool
    ensures { IsTrue result ↔ (key_bytes one.now ≡ key_bytes other.now) }
{
    one.authority == other.authority && one.code == other.code
}

/// Appends the authority, a colon and the code, on one line.
pub fn push_key(text: &mut Vec<u8>, key: &KeyText) -> Result<(), AllocError>
    ensures { OnOk result (text.new.items ≡ text.old.items ++ key_text (key_bytes key.now)) }
{
    push_on_line(text, key.authority)?;
    text.push(b':')?;
    push_on_line(text, key.code)?;
    Ok(())
}

/// Appends the key of an entry that is only pointed at: its first 200 characters, and `…` if it has more.
pub fn push_short_key(alloc: Global, text: &mut Vec<u8>, key: &KeyText) -> Result<(), AllocError>
    ensures { OnOk result (text.new.items ≡ text.old.items ++ short (key_text (key_bytes key.now))) }
{
    let mut whole = Vec::new(alloc);
    push_key(&mut whole, key)?;
    push_short(text, &whole)?;
    Ok(())
}

/// Appends the bytes, with a space instead of each line break.
pub fn push_on_line(text: &mut Vec<u8>, bytes: &[u8]) -> Result<(), AllocError>
    ensures { OnOk result (text.new.items ≡ text.old.items ++ map on_line bytes.now) }
{
    for byte in bytes {
        text.push(on_line(*byte))?;
    }
    Ok(())
}

fn on_line(byte: u8) -> u8
    ensures { result ≡ on_line byte }
{
    if byte == b'\n' || byte == b'\r' {
        b' '
    } else {
        byte
    }
}
