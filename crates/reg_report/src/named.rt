//! Ids that operations name, and that no operation has entered.

ghost use Rattle.std.specs.Prelude.{◌≡◌, ◌++◌, [], ◌∷◌, not, filter, IfOk, OnOk};
ghost use Rattle.reg_op.specs.Set as set;
ghost use Rattle.reg_op.specs.Operations.{named_in};
ghost use Rattle.reg_op.specs.Rows.{awaited};
ghost use Rattle.reg_op.specs.Status.{enters};

use crate::distinct::distinct;
use crate::entry::is_entered;
use reg_op::{Op, OpBody, OpId};
use reg_state::Register;
use std::alloc::{AllocError, Global};

/// The ids that operations name, and that were not entered.
pub fn awaited(alloc: Global, register: &Register) -> Result<Vec<OpId>, AllocError>
    ensures { IfOk result (λ ids. ids.items ≡ set.items (awaited register.now.ops)) }
{
    let mut ids = Vec::new(alloc);
    for op in register.ops().as_slice() {
        push_awaited(&mut ids, register, op)?;
    }
    Ok(distinct(ids))
}

fn push_awaited(ids: &mut Vec<OpId>, register: &Register, op: &Op) -> Result<(), AllocError>
    ensures { OnOk result (ids.new.items ≡ ids.old.items ++ filter (λ i. not (enters register.now.ops i)) (named_in op.now.body)) }
{
    match op.body() {
        OpBody::Enter(_) => {}
        OpBody::Retire { entry } => push_unless_entered(ids, register, *entry)?,
        OpBody::Supersede { old, newer } => {
            push_unless_entered(ids, register, *old)?;
            push_unless_entered(ids, register, *newer)?;
        }
    }
    Ok(())
}

fn push_unless_entered(ids: &mut Vec<OpId>, register: &Register, id: OpId) -> Result<(), AllocError>
    ensures { OnOk result (ids.new.items ≡ ids.old.items ++ filter (λ i. not (enters register.now.ops i)) (id ∷ [])) }
{
    if is_entered(register, id) {
        return Ok(());
    }
    ids.push(id)?;
    Ok(())
}
