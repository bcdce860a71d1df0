//! Texts as they are shown to people.

ghost use Rattle.std.specs.Prelude.{◌≡◌, ◌<◌, ◌++◌, IfOk, OnOk, string_bytes, chars, length, take};
ghost use Rattle.std.specs.List.{flat_map};
ghost use Rattle.text_hidden.specs.Marks.{digit, digits, mark};
ghost use Rattle.csv_table.specs.Marks.{most, shown, marked};

use std::alloc::{AllocError, Global};
use text_hidden::is_hidden;

// A field is cut after this many characters: one long name does not make a table that nobody can read.
const MOST: usize = 200;

/// The field, with a mark in the place of each character that could move the cursor of a terminal, change the direction of the text,
/// or not be seen. A field of more than 200 characters is cut after these, and ends with an ellipsis.
pub fn marked(alloc: Global, field: &[u8]) -> Result<String, AllocError>
    ensures { IfOk result (λ text. string_bytes text ≡ marked field.now) }
{
    let text = String::from_utf8_lossy(alloc, field)?;
    let mut out = String::new(alloc);
    push_characters(&mut out, &text)?;
    if count(&text) > MOST {
        out.push_str("…")?;
    }
    Ok(out)
}

fn count(text: &str) -> usize
    ensures { result ≡ length (chars text.now) }
{
    text.chars().count()
}

// Appends the first characters, as they are shown.
fn push_characters(out: &mut String, text: &str) -> Result<(), AllocError>
    ensures { OnOk result (string_bytes out.new ≡ string_bytes out.old ++ flat_map shown (take most (chars text.now))) }
{
    for c in text.chars().take(MOST) {
        push_shown(out, c)?;
    }
    Ok(())
}

fn push_shown(out: &mut String, c: char) -> Result<(), AllocError>
    ensures { OnOk result (string_bytes out.new ≡ string_bytes out.old ++ shown c) }
{
    if is_hidden(c) {
        return push_mark(out, u32::from(c));
    }
    out.push(c)?;
    Ok(())
}

fn push_mark(out: &mut String, code: u32) -> Result<(), AllocError>
    ensures { OnOk result (string_bytes out.new ≡ string_bytes out.old ++ mark code) }
{
    out.push_str("⟨U+")?;
    push_digits(out, code)?;
    out.push_str("⟩")?;
    Ok(())
}

fn push_digits(out: &mut String, code: u32) -> Result<(), AllocError>
    ensures { OnOk result (string_bytes out.new ≡ string_bytes out.old ++ digits code) }
{
    out.push(digit(code / 4096 % 16))?;
    out.push(digit(code / 256 % 16))?;
    out.push(digit(code / 16 % 16))?;
    out.push(digit(code % 16))?;
    Ok(())
}

// A hexadecimal digit.
fn digit(value: u32) -> char
    requires { value < 16 }
    ensures value { result ≡ digit value }
    ensures ascii { result < 128 }
{
    if value < 10 {
        char::from(b'0' + value as u8)
    } else {
        char::from(b'A' + (value - 10) as u8)
    }
}
