//! The operations of a log, in order.

ghost use Rattle.std.specs.Prelude.{◌≡◌, ◌++◌, ◌∷◌, [], filter, IfOk, OnOk, if◌then◌else◌};
ghost use Rattle.reg_op.specs.Operations.{Op as Operation};
ghost use Rattle.reg_query.specs.Log.{subject, AreLogged};
ghost use Rattle.reg_query.specs.Asked.{AreWanted, is_asked};
ghost use Rattle.reg_query.specs.declared.log.asked.Asked.{Asked as AskedOf};

use crate::log::asked::{Asked, WantedEntries, in_order, is_wanted};
use crate::log::order::{order, subject};
use reg_op::Op;
use reg_state::Register;
use std::alloc::{AllocError, Global};

// Appends a copy of the operation, if its entry is requested.
fn push_where_wanted(
    alloc: Global,
    made: &mut Vec<Op>,
    wanted: &WantedEntries,
    op: &Op,
) -> Result<(), AllocError>
    requires { (asked : AskedOf) × AreWanted asked wanted.now }
    ensures { (asked : AskedOf) → AreWanted asked wanted.now → OnOk result (made.new.items ≡ made.old.items ++ (if is_asked asked (subject op.now) then op.now ∷ [] else [])) }
{
    if !is_wanted(wanted, subject(op)) {
        return Ok(());
    }
    let copy = op.try_clone(alloc)?;
    made.push(copy)?;
    Ok(())
}

fn ops_wanted(alloc: Global, ops: &[Op], wanted: &WantedEntries) -> Result<Vec<Op>, AllocError>
    requires { (asked : AskedOf) × AreWanted asked wanted.now }
    ensures { (asked : AskedOf) → AreWanted asked wanted.now → IfOk result (λ made. made.items ≡ filter (λ (o : Operation). is_asked asked (subject o)) ops.now) }
{
    let mut made = Vec::new(alloc);
    let mut rest = ops;
    while let Some((op, others)) = rest.split_first() {
        push_where_wanted(alloc, &mut made, wanted, op)?;
        rest = others;
    }
    Ok(made)
}

/// The operations that the register keeps on the requested entries, entry by entry.
pub fn logged(alloc: Global, register: &Register, asked: &Asked<'_>) -> Result<Vec<Op>, AllocError>
    ensures { IfOk result (λ made. AreLogged (is_asked asked.now) register.now.ops made.items) }
{
    let ops = register.ops().as_slice();
    let wanted = in_order(alloc, asked)?;
    let mut made = ops_wanted(alloc, ops, &wanted)?;
    made.sort_unstable_by(|left, right| order(left, right));
    Ok(made)
}
