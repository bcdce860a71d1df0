//! Texts, one after another, and numbers as texts.

ghost use Rattle.std.specs.Prelude.{◌≡◌, IfOk};
ghost use Rattle.std.specs.List.{flat_map};
ghost use Rattle.crs_number.specs.Canonical.{canonical};

use crs_number::Decimal;
use std::alloc::{AllocError, Global};

/// The pieces, one after another.
pub fn joined(alloc: Global, pieces: &[&[u8]]) -> Result<Vec<u8>, AllocError>
    ensures { IfOk result (λ text. text.items ≡ flat_map (λ piece. piece.now) pieces.now) }
{
    let mut text = Vec::new(alloc);
    for piece in pieces {
        text.extend_from_slice(piece)?;
    }
    Ok(text)
}

/// The canonical text of a number.
pub fn number(alloc: Global, value: Decimal) -> Result<Vec<u8>, AllocError>
    ensures { IfOk result (λ text. text.items ≡ canonical value.coefficient value.exponent) }
{
    let mut text = Vec::new(alloc);
    value.write_to(&mut text)?;
    Ok(text)
}
