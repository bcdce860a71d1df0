//! The first text in quotation marks.

ghost use Rattle.std.specs.Prelude.{◌≡◌, [], false, IfOk};
ghost use Rattle.std.specs.Option.{unwrap_or};
ghost use Rattle.reg_import.specs.Quoted.{quoted, first_quoted, shown_quoted, Quotes};

use std::alloc::{AllocError, Global};

// Reads one more byte of a quoted text. Returns whether the byte may be the closing mark, or none if the text ended before it.
fn push_quoted(text: &mut Vec<u8>, marked: bool, b: u8) -> Result<Option<bool>, AllocError>
    ensures { IfOk result (Quotes marked b text.old.items text.new.items) }
{
    if b != b'"' {
        if marked {
            return Ok(None);
        }
        text.push(b)?;
        return Ok(Some(false));
    }
    if !marked {
        return Ok(Some(true));
    }
    text.push(b)?;
    Ok(Some(false))
}

// The text up to the closing mark, with each doubled mark as one; empty if no mark closes it.
fn quoted(alloc: Global, bytes: &[u8]) -> Result<Vec<u8>, AllocError>
    ensures { IfOk result (λ text. text.items ≡ unwrap_or (quoted false bytes.now) []) }
{
    let mut text = Vec::new(alloc);
    let mut marked = false;
    let mut rest = bytes;
    while let Some((b, others)) = rest.split_first() {
        let Some(next) = push_quoted(&mut text, marked, *b)? else {
            return Ok(text);
        };
        marked = next;
        rest = others;
    }
    if !marked {
        return Ok(Vec::new(alloc));
    }
    Ok(text)
}

/// The first text in quotation marks as UTF-8, with U+FFFD instead of bytes that are none; empty if there is no such text.
pub fn shown_quoted(alloc: Global, bytes: &[u8]) -> Result<Vec<u8>, AllocError>
    ensures { IfOk result (λ text. text.items ≡ shown_quoted bytes.now) }
{
    let quoted = first_quoted(alloc, bytes)?;
    let shown = String::from_utf8_lossy(alloc, &quoted)?;
    Vec::from_slice(alloc, shown.as_bytes())
}

// The first text in quotation marks; empty if there is none.
fn first_quoted(alloc: Global, bytes: &[u8]) -> Result<Vec<u8>, AllocError>
    ensures { IfOk result (λ text. text.items ≡ first_quoted bytes.now) }
{
    let mut rest = bytes;
    while let Some((b, others)) = rest.split_first() {
        if *b == b'"' {
            return quoted(alloc, others);
        }
        rest = others;
    }
    Ok(Vec::new(alloc))
}
