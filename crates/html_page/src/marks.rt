//! Marks for characters that a reader cannot see.

ghost use Rattle.std.specs.Prelude.{◌≡◌, ◌++◌, ◌%◌, drop, IfOk, OnOk};
ghost use Rattle.text_hidden.specs.Marks.{digit, mark};
ghost use Rattle.html_page.specs.Escaped.{escaped};
ghost use Rattle.html_page.specs.Marks.{is_kept, marked_at, shown, more_of, marked};

use crate::escaping::{push_byte, push_escaped};
use std::alloc::AllocError;
use text_hidden::{HiddenCharacter, hidden_at};

/// Whether line feeds are marked like other control characters, or kept.
#[derive(Clone, Copy, Debug, PartialEq, Eq)]
pub enum Feeds {
    Marked,
    Kept,
}

fn is_kept(feeds: Feeds, byte: u8) -> bool
    ensures { result ≡ is_kept feeds byte }
{
    byte == b'\n' && feeds == Feeds::Kept
}

// The character that these bytes begin with, if it is marked.
fn marked_at(feeds: Feeds, byte: u8, rest: &[u8]) -> Option<HiddenCharacter>
    ensures { result ≡ marked_at feeds byte rest.now }
{
    if is_kept(feeds, byte) {
        return None;
    }
    hidden_at(byte, rest)
}

fn hex_digit(number: u32) -> u8
    ensures { result ≡ digit (number % 16) }
{
    let value = (number % 16) as u8;
    if value < 10 {
        b'0' + value
    } else {
        b'7' + value
    }
}

fn push_mark(page: &mut Vec<u8>, number: u32) -> Result<(), AllocError>
    ensures { OnOk result (page.new.items ≡ page.old.items ++ escaped (mark number)) }
{
    let mark = [
        226,
        159,
        168,
        b'U',
        b'+',
        hex_digit(number / 4096),
        hex_digit(number / 256),
        hex_digit(number / 16),
        hex_digit(number),
        226,
        159,
        169,
    ];
    push_escaped(page, &mark)
}

// Appends the character's mark, or the byte. Returns the number of bytes after it that belong to it.
fn push_first(
    page: &mut Vec<u8>,
    byte: u8,
    hidden: Option<HiddenCharacter>,
) -> Result<usize, AllocError>
    ensures { IfOk result (λ more. (more ≡ more_of hidden) × (page.new.items ≡ page.old.items ++ escaped (shown byte hidden))) }
{
    let Some(hidden) = hidden else {
        push_byte(page, byte)?;
        return Ok(0);
    };
    push_mark(page, hidden.number)?;
    Ok(hidden.more)
}

// The bytes after the first ones.
fn after(bytes: &[u8], count: usize) -> &[u8]
    ensures { result.now ≡ drop count bytes.now }
{
    if count < bytes.len() {
        return &bytes[count..];
    }
    &[]
}

/// Appends the text, with marks, and escaped.
pub fn push_marked(page: &mut Vec<u8>, feeds: Feeds, text: &[u8]) -> Result<(), AllocError>
    ensures { OnOk result (page.new.items ≡ page.old.items ++ escaped (marked feeds text.now)) }
{
    let mut rest = text;
    while let Some((byte, others)) = rest.split_first() {
        let hidden = marked_at(feeds, *byte, others);
        let more = push_first(page, *byte, hidden)?;
        rest = after(others, more);
    }
    Ok(())
}
