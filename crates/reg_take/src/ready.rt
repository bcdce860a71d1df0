//! The result of taking files, before anything is written.

ghost use Rattle.std.specs.Prelude.{◌≡◌, ◌↔◌, IsTrue, IfOk, IfSome, IfNone, IfErr};
ghost use Rattle.reg_query.specs.DiffLines.{IsDiff};
ghost use Rattle.reg_take.specs.Taken.{IsTakenFrom};
ghost use Rattle.reg_take.specs.Take.{CannotJoin, IsFirstFault, MayLeave};

use crate::all::take_all;
use crate::files::Arrival;
use crate::same::is_same;
use crate::taking::{LeftOut, Taking};
use reg_engine::CliFault;
use reg_query::compare;
use reg_state::Register;
use std::alloc::Global;

/// The register joined with the files, the rows that changed, whether the register is the same as before, and the files that are
/// left out.
#[derive(Drop)]
pub struct Ready {
    pub register: Register,
    pub lines: Vec<u8>,
    pub is_same: bool,
    pub left: Vec<LeftOut>,
}

// The fault that ends the command: that of the first file that is left out, unless the command keeps going.
fn ending(keep_going: bool, left: &[LeftOut]) -> Option<CliFault>
    ensures fault { IfSome result (IsFirstFault keep_going left.now) }
    ensures none { IfNone result (MayLeave keep_going left.now) }
{
    if keep_going {
        return None;
    }
    match left.first() {
        Some(first) => Some(first.fault()),
        None => None,
    }
}

// Joins what the files gave to a register.
fn join_arrivals(
    alloc: Global,
    base: &Register,
    arrivals: &[Arrival],
    keep_going: bool,
) -> Result<Taking, CliFault>
    ensures taken { IfOk result (λ t. IsTakenFrom keep_going base.now arrivals.now t.register t.left.items × MayLeave keep_going t.left.items) }
    ensures fault { IfErr result (CannotJoin keep_going base.now arrivals.now) }
{
    let Ok(taking) = take_all(alloc, base, arrivals, keep_going) else {
        return Err(CliFault::Memory);
    };
    match ending(keep_going, &taking.left) {
        Some(fault) => Err(fault),
        None => Ok(taking),
    }
}

/// Joins what the files gave to a register, and makes the rows of what differs from the loaded one.
pub fn make_ready(
    alloc: Global,
    loaded: &Register,
    base: &Register,
    arrivals: &[Arrival],
    keep_going: bool,
) -> Result<Ready, CliFault>
    ensures taken { IfOk result (λ r. IsTakenFrom keep_going base.now arrivals.now r.register r.left.items × MayLeave keep_going r.left.items) }
    ensures lines { IfOk result (λ r. IsDiff loaded.now r.register r.lines.items) }
    ensures same { IfOk result (λ r. IsTrue r.is_same ↔ (r.register ≡ loaded.now)) }
    ensures fault { IfErr result (CannotJoin keep_going base.now arrivals.now) }
{
    let Taking { register, left } = match join_arrivals(alloc, base, arrivals, keep_going) {
        Ok(taking) => taking,
        Err(fault) => return Err(fault),
    };
    let Ok(made) = compare(alloc, loaded, &register) else {
        return Err(CliFault::Memory);
    };
    let is_same = is_same(&register, loaded);
    Ok(Ready {
        register,
        lines: made.text,
        is_same,
        left,
    })
}
