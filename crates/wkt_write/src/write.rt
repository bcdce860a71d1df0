//! The texts of a value.

ghost use Rattle.std.specs.Prelude.{◌≡◌, IfOk};
ghost use Rattle.wkt_grammar.specs.Canon.{canon, pretty};

use crate::layout::Layout;
use crate::written::Written;
use crs_part::CrsParts;
use std::alloc::{AllocError, Global};

/// The number of bytes that is enough for most texts.
const COMMON_LENGTH: usize = 1024;

/// The canonical text.
pub fn write_crs(alloc: Global, parts: &CrsParts) -> Result<Vec<u8>, AllocError>
    ensures { IfOk result (λ text. text.items ≡ canon parts.now) }
{
    write_crs_with_room(alloc, parts, COMMON_LENGTH)
}

/// The canonical text, with this many bytes reserved in advance. A longer text reallocates.
pub fn write_crs_with_room(
    alloc: Global,
    parts: &CrsParts,
    room: usize,
) -> Result<Vec<u8>, AllocError>
    ensures { IfOk result (λ text. text.items ≡ canon parts.now) }
{
    let mut out = Vec::with_capacity(alloc, room)?;
    parts.push_to(&mut out, Layout::OneLine)?;
    Ok(out)
}

/// The indented text.
pub fn write_pretty(alloc: Global, parts: &CrsParts) -> Result<Vec<u8>, AllocError>
    ensures { IfOk result (λ text. text.items ≡ pretty parts.now) }
{
    let mut out = Vec::with_capacity(alloc, COMMON_LENGTH)?;
    parts.push_to(&mut out, Layout::Root)?;
    Ok(out)
}
