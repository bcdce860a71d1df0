//! Texts as parts of a block of bytes.

ghost use Rattle.std.specs.Prelude.{◌≡◌, IfOk, IfSome};

use bytes::Bytes;
use std::alloc::{AllocError, Global};

// The part of the block with `behind` bytes after it, if it is this text. Where the text stands is a number that no clause
// explains, so the bytes are compared, which takes less time than to copy them.
fn part_of(block: &Bytes, bytes: &[u8], behind: usize) -> Option<Bytes>
    ensures { IfSome result (λ text. text ≡ bytes.now) }
{
    let end = block.len().checked_sub(behind)?;
    let start = end.checked_sub(bytes.len())?;
    let Ok(part) = block.slice(start..end) else {
        return None;
    };
    if part.as_slice() != bytes {
        return None;
    }
    Some(part)
}

/// The text as a part of the block, otherwise a copy of it.
pub fn text_in(
    alloc: Global,
    block: &Bytes,
    bytes: &[u8],
    behind: usize,
) -> Result<Bytes, AllocError>
    ensures { IfOk result (λ text. text ≡ bytes.now) }
{
    match part_of(block, bytes, behind) {
        Some(part) => Ok(part),
        None => Bytes::copy_from_slice(alloc, bytes),
    }
}
