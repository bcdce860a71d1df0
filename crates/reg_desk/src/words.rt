//! The words of a fault of a file, as in its line on standard error.

ghost use Rattle.std.specs.Prelude.{◌≡◌, IfOk};
ghost use Rattle.reg_desk.specs.Words.{bad_name, full_name, words_of};

use reg_engine::InputFault;
use reg_file::FileFault;
use std::alloc::{AllocError, Global};

// Of a definition in the file, the name of its own fault too.
fn bad_name(alloc: Global, fault: FileFault) -> Result<Vec<u8>, AllocError>
    ensures { IfOk result (λ words. words.items ≡ bad_name fault) }
{
    let mut words = Vec::new(alloc);
    words.extend_from_slice(fault.name().as_bytes())?;
    match fault {
        FileFault::Definition(own) => {
            words.extend_from_slice(b" ")?;
            words.extend_from_slice(own.name().as_bytes())?;
            Ok(words)
        }
        _ => Ok(words),
    }
}

fn full_name(alloc: Global, fault: InputFault) -> Result<Vec<u8>, AllocError>
    ensures { IfOk result (λ words. words.items ≡ full_name fault) }
{
    match fault {
        InputFault::BadFile { fault, .. } => bad_name(alloc, fault),
        _ => {
            let mut words = Vec::new(alloc);
            words.extend_from_slice(fault.name().as_bytes())?;
            Ok(words)
        }
    }
}

/// The name, and the place if it has one.
pub(crate) fn words_of(alloc: Global, fault: InputFault) -> Result<Vec<u8>, AllocError>
    ensures { IfOk result (λ words. words.items ≡ words_of fault) }
{
    let mut words = full_name(alloc, fault)?;
    match fault.place() {
        Some(place) => {
            let place = place.to_string(alloc)?;
            words.extend_from_slice(b" at ")?;
            words.extend_from_slice(place.as_bytes())?;
            Ok(words)
        }
        None => Ok(words),
    }
}
