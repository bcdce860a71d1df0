//! Registers, joined in pairs, and their joins in pairs again.

ghost use Rattle.std.specs.Prelude.{◌≡◌, Ok, Err, IfOk};
ghost use Rattle.std.specs.Bool.{OnTrue};
ghost use Rattle.reg_op.specs.Joining.{all_joined};
ghost use Rattle.reg_op.specs.Contents.{nothing, joined};
ghost use Rattle.reg_op.specs.Ids.{Id};
ghost use Rattle.reg_op.specs.Operations.{OneBody};
ghost use Rattle.reg_state.specs.ManyLaws.{all_ops, merged_all};
ghost use Rattle.reg_tree.specs.Listed.{ops_at, ops_in};

use crate::agreeing::{agree, push_ops};
use reg_op::joining::{Join, JoinFault, join_all};
use reg_op::{Op, OpId};
use reg_state::Register;
use std::alloc::{AllocError, Global};

/// The operations of all registers.
fn ops_of<'a>(alloc: Global, registers: &'a [Register]) -> Result<Vec<&'a Op>, AllocError>
    ensures { IfOk result (λ made. ops_at made.items ≡ ops_in registers.now) }
{
    let mut made = Vec::new(alloc);
    for register in registers {
        push_ops(&mut made, register.ops().as_slice())?;
    }
    Ok(made)
}

// Whether no id has two operations in these registers.
fn all_agree(alloc: Global, registers: &[Register]) -> Result<bool, AllocError>
    ensures { IfOk result (λ agree. OnTrue agree (OneBody (all_ops registers.now))) }
{
    let ops = ops_of(alloc, registers)?;
    agree(ops)
}

/// Joins registers in which no id has two operations: each half, and then the two.
pub fn join_halves(alloc: Global, registers: &[Register]) -> Result<Register, AllocError>
    requires { OneBody (all_ops registers.now) }
    ensures { IfOk result (λ r. r ≡ merged_all registers.now) }
{
    if registers.len() <= 2 {
        return match join_all(alloc, registers) {
            Ok(all) => Ok(all),
            Err(_) => Err(AllocError),
        };
    }
    let (left, right) = registers.split_at(registers.len() / 2);
    let left = join_halves(alloc, left)?;
    let right = join_halves(alloc, right)?;
    match left.join(alloc, &right) {
        Ok(all) => Ok(all),
        Err(_) => Err(AllocError),
    }
}

/// Joins all registers, as `join_all` does. If an id has two operations, they are joined from left to right, so that the first
/// clash is found. Otherwise registers of n operations in all take n log n steps.
pub fn join_registers(alloc: Global, registers: &[Register]) -> Result<Register, JoinFault<OpId>>
    ensures ok { IfOk result (λ r. all_joined joined (Ok nothing) registers.now ≡ Ok r) }
    ensures clash { (id : Id) → result ≡ Err (JoinFault.Clash id) → all_joined joined (Ok nothing) registers.now ≡ Err id }
{
    if registers.len() <= 2 {
        return join_all(alloc, registers);
    }
    match all_agree(alloc, registers) {
        Ok(true) => match join_halves(alloc, registers) {
            Ok(all) => Ok(all),
            Err(_) => Err(JoinFault::Memory),
        },
        Ok(false) => join_all(alloc, registers),
        Err(_) => Err(JoinFault::Memory),
    }
}
