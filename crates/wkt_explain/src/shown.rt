//! Shows the line of a place.

ghost use Rattle.std.specs.Prelude.{◌≡◌, ◌++◌, take, OnOk};
ghost use Rattle.wkt_explain.specs.Characters.{chars};
ghost use Rattle.wkt_explain.specs.Shown.{blanks, is_hidden, shown, shown_before, shown_byte, shown_char, shown_lines};

use crate::characters::{after_chars, count_chars, split_char};
use std::alloc::AllocError;
use text_hidden::hidden_at;

/// The most characters of a line that are shown.
const WIDTH: usize = 80;

/// The number of characters from the place on that are shown, if the line is that long. The rest of the width shows the
/// characters before the place.
const AHEAD: usize = 40;

fn shown_byte(b: u8) -> u8
    ensures { result ≡ shown_byte b }
{
    if b == b'\t' {
        return b' ';
    }
    if b < 32 || b > 126 {
        return b'?';
    }
    b
}

// Whether the character is hidden.
fn is_hidden(char: &[u8]) -> bool
    ensures { result ≡ is_hidden char.now }
{
    let Some((first, rest)) = char.split_first() else {
        return false;
    };
    hidden_at(*first, rest).is_some()
}

fn push_char(out: &mut Vec<u8>, char: &[u8]) -> Result<(), AllocError>
    ensures { OnOk result (out.new.items ≡ out.old.items ++ shown_char char.now) }
{
    if char.len() == 1 {
        out.push(shown_byte(char[0]))?;
        return Ok(());
    }
    if is_hidden(char) {
        out.push(b'?')?;
        return Ok(());
    }
    out.extend_from_slice(char)
}

// Appends at most this many leading characters, as they are shown.
fn push_shown(out: &mut Vec<u8>, bytes: &[u8], most: usize) -> Result<(), AllocError>
    ensures { OnOk result (out.new.items ≡ out.old.items ++ shown (take most (chars bytes.now))) }
{
    let mut rest = bytes;
    let mut left = most;
    while left > 0 {
        let Some((char, others)) = split_char(rest) else {
            return Ok(());
        };
        push_char(out, char)?;
        rest = others;
        left -= 1;
    }
    Ok(())
}

fn push_blanks(out: &mut Vec<u8>, count: usize) -> Result<(), AllocError>
    ensures { OnOk result (out.new.items ≡ out.old.items ++ blanks count) }
{
    let mut left = count;
    while left > 0 {
        out.push(b' ')?;
        left -= 1;
    }
    Ok(())
}

// The number of characters shown before a place, given the numbers of characters before it and from it on.
fn shown_before(before: usize, after: usize) -> usize
    ensures { result ≡ shown_before before after }
{
    before.min(WIDTH - after.min(AHEAD).max(1))
}

/// Appends a line, given its parts before and from a place, and a caret under the place.
pub(crate) fn push_lines(out: &mut Vec<u8>, before: &[u8], after: &[u8]) -> Result<(), AllocError>
    ensures { OnOk result (out.new.items ≡ out.old.items ++ shown_lines (chars before.now) (chars after.now)) }
{
    let all = count_chars(before);
    let front = shown_before(all, count_chars(after));
    let behind = after_chars(before, all - front);
    push_shown(out, behind, front)?;
    push_shown(out, after, WIDTH - front)?;
    out.push(b'\n')?;
    push_blanks(out, front)?;
    out.extend_from_slice(b"^\n")?;
    Ok(())
}
