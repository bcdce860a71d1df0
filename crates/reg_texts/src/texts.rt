//! The texts of a register.

ghost use Rattle.std.specs.Prelude.{IfOk, map};
ghost use Rattle.reg_texts.specs.Said.{said};
ghost use Rattle.reg_texts.specs.Texts.{IsInOrder, IsTextsOf};

use crate::gathering::sayings;
use crate::listing::listing;
use crate::saying::Saying;
use reg_report::rows;
use reg_state::Register;
use std::alloc::{AllocError, Global};

/// Each text of an entry that is not retired, by key, with its status.
pub fn texts_of(alloc: Global, register: &Register) -> Result<Vec<u8>, AllocError>
    ensures { IfOk result (λ text. IsTextsOf register.now text.items) }
{
    let rows = rows(alloc, register)?;
    let made = sayings(alloc, &rows)?;
    let made = in_order(made);
    let text = listing(alloc, &made)?;
    Ok(text)
}

/// Sorted, each once.
pub fn in_order(sayings: Vec<Saying<'_>>) -> Vec<Saying<'_>>
    ensures { IsInOrder (map said sayings.entry.items) (map said result.items) }
{
    let mut made = sayings;
    made.sort_unstable();
    made.dedup();
    made
}
