//! The keys of reference systems.

ghost use Rattle.std.specs.Prelude.{◌≡◌, IfOk};
ghost use Rattle.crs_part.specs.Slots.{ids_of};
ghost use Rattle.crs_value.specs.Keys.{text_of};
ghost use Rattle.reg_lint.specs.Subjects.{authority_of, code_of};

use crs_exact::number;
use crs_part::NumberOrText;
use crs_value::Crs;
use std::alloc::{AllocError, Global};

/// The authority of the first identifier, or nothing.
pub(crate) fn authority_of(crs: &Crs) -> &[u8]
    ensures { result.now ≡ authority_of (ids_of crs.now.parts) }
{
    match crs.parts().ids().split_first() {
        Some((id, _)) => id.authority.as_bytes(),
        None => &[],
    }
}

/// The code of the first identifier, or nothing.
pub(crate) fn code_of(alloc: Global, crs: &Crs) -> Result<Vec<u8>, AllocError>
    ensures { IfOk result (λ text. text.items ≡ code_of (ids_of crs.now.parts)) }
{
    match crs.parts().ids().split_first() {
        Some((id, _)) => code_text(alloc, &id.code),
        None => Ok(Vec::new(alloc)),
    }
}

fn code_text(alloc: Global, code: &NumberOrText) -> Result<Vec<u8>, AllocError>
    ensures { IfOk result (λ text. text.items ≡ text_of code.now) }
{
    match code {
        NumberOrText::Number(code) => number(alloc, *code),
        NumberOrText::Text(code) => copied(alloc, code.as_bytes()),
    }
}

/// A copy of the bytes.
pub(crate) fn copied(alloc: Global, bytes: &[u8]) -> Result<Vec<u8>, AllocError>
    ensures { IfOk result (λ text. text.items ≡ bytes.now) }
{
    let mut text = Vec::new(alloc);
    text.extend_from_slice(bytes)?;
    Ok(text)
}
