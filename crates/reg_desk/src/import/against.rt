//! The faults of refused texts.

ghost use Rattle.std.specs.Prelude.{◌≡◌, ◌+◌, ◌^◌, ◌≤◌, IfOk, IfErr, IfSome, IfNone};
ghost use Rattle.reg_desk.specs.declared.import.fault.ImportFault.TheVariants as import;
ghost use Rattle.reg_desk.specs.ImportProgress.{IsFaultOfFirst, IsTooFar};

use crate::import::fault::{ImportFault, Unimported};
use crate::import::progress::Refused;
use std::alloc::AllocError;

// Why a text is rejected. The file with index 0 has this number among the files that are read.
fn fault_of(first: usize, refused: &Refused) -> Option<ImportFault>
    ensures some { IfSome result (λ f. f ≡ import.Refused refused.now.problem refused.now.place (first + refused.now.file)) }
    ensures none { IfNone result (2 ^ 64 ≤ first + refused.now.file) }
{
    let Some(file) = first.checked_add(refused.file) else {
        return None;
    };
    Some(ImportFault::Refused {
        problem: refused.problem,
        place: refused.place,
        file,
    })
}

// The fault that this text is refused, with these explanations.
fn against(first: usize, refused: &Refused, notes: Vec<u8>) -> Result<Unimported, AllocError>
    ensures fault { IfOk result (λ u. u.fault ≡ import.Refused refused.now.problem refused.now.place (first + refused.now.file)) }
    ensures notes { IfOk result (λ u. u.notes ≡ notes) }
    ensures memory { IfErr result (λ e. 2 ^ 64 ≤ first + refused.now.file) }
{
    match fault_of(first, refused) {
        Some(fault) => Ok(Unimported { fault, notes }),
        None => Err(AllocError),
    }
}

/// The fault of the first text that is refused, if there is one, with these explanations.
pub fn first_against(
    first: usize,
    refused: &Option<Refused>,
    notes: Vec<u8>,
) -> Result<Option<Unimported>, AllocError>
    ensures fault { IfOk result (IsFaultOfFirst first refused.now notes.items) }
    ensures memory { IfErr result (λ e. IsTooFar first refused.now) }
{
    match refused {
        Some(refused) => {
            let why = against(first, refused, notes)?;
            Ok(Some(why))
        }
        None => Ok(None),
    }
}
