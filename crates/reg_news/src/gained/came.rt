//! What came to a register.

ghost use Rattle.std.specs.Prelude.{◌≡◌, IfOk};
ghost use Rattle.reg_news.specs.Hidden.{came};

use reg_state::Register;
use reg_tree::offices::register_in;
use std::alloc::{AllocError, Global};

/// What the second register has that the first one has not seen.
pub(crate) fn came(alloc: Global, old: &Register, new: &Register) -> Result<Register, AllocError>
    ensures { IfOk result (λ r. r ≡ came old.now new.now) }
{
    let piece = new.piece_for(alloc, old.seen())?;
    register_in(alloc, &piece)
}
