//! All files, joined to a register.

ghost use Rattle.std.specs.Prelude.{IfOk};
ghost use Rattle.reg_take.specs.Taken.{IsTakenFrom};

use crate::files::Arrival;
use crate::taking::{TakePhase, Taking};
use reg_state::Register;
use std::alloc::{AllocError, Global};

/// Joins all registers, and then all pieces. Those that cannot be joined are left out, as are those that were not read, and those
/// with forged numbers. If the
/// command keeps going, a piece is tried again whose basis comes with a later one.
pub(crate) fn take_all(
    alloc: Global,
    register: &Register,
    arrivals: &[Arrival],
    keep_going: bool,
) -> Result<Taking, AllocError>
    ensures { IfOk result (λ t. IsTakenFrom keep_going register.now arrivals.now t.register t.left.items) }
{
    let _seen = register.seen();
    let taking = Taking {
        register: register.try_clone(alloc)?,
        left: Vec::new(alloc),
    };
    let unread = taking.walk(alloc, TakePhase::Unread, arrivals)?;
    let honest = unread.walk(alloc, TakePhase::Forged, arrivals)?;
    let joined = honest.take_registers(alloc, arrivals)?;
    let walked = joined.take_pieces(alloc, arrivals)?;
    if keep_going {
        return walked.try_again(alloc, arrivals);
    }
    Ok(walked)
}
