//! The operations that a register or a piece has of some offices, as a register.

ghost use Rattle.std.specs.Prelude.{◌≡◌, ◌++◌, [], ◌∷◌, IfOk, OnOk};
ghost use Rattle.std.specs.List.Sorted.{IsSorted};
ghost use Rattle.reg_op.specs.Operations.{op_cmp};
ghost use Rattle.reg_op.specs.Contents.{state};
ghost use Rattle.reg_op.specs.Lists.{ById};
ghost use Rattle.reg_op.specs.Pieces.{part_of};
ghost use Rattle.reg_op.specs.Set as set;
ghost use Rattle.reg_state.specs.Runs.{replica_cmp};
ghost use Rattle.reg_tree.specs.Offices.{is_theirs, listed, theirs, from_offices};

use crate::offices::ids::ids_of;
use reg_op::{Op, OpId};
use reg_state::{Piece, Register};
use std::alloc::{AllocError, Global};
use uuid::Uuid;

// Whether the id is one of these offices', which are in order.
fn is_theirs(offices: &[Uuid], id: OpId) -> bool
    requires { IsSorted replica_cmp offices.now }
    ensures { result ≡ is_theirs offices.now id }
{
    offices.binary_search(&id.replica()).is_ok()
}

// Appends a copy of an operation, if one of the offices made it.
fn push_theirs(
    alloc: Global,
    made: &mut Vec<Op>,
    op: &Op,
    offices: &[Uuid],
) -> Result<(), AllocError>
    requires { IsSorted replica_cmp offices.now }
    ensures { OnOk result (made.new.items ≡ made.old.items ++ listed offices.now (op.now ∷ [])) }
{
    if !is_theirs(offices, op.id()) {
        return Ok(());
    }
    made.push(op.try_clone(alloc)?)?;
    Ok(())
}

// Copies of the operations that these offices made, in order. The offices are in order too.
fn theirs_of(alloc: Global, ops: &[Op], offices: &[Uuid]) -> Result<Vec<Op>, AllocError>
    requires { IsSorted replica_cmp offices.now }
    ensures { IfOk result (λ made. made.items ≡ listed offices.now ops.now) }
{
    let mut made = Vec::new(alloc);
    let mut rest = ops;
    while let [op, others @ ..] = rest {
        push_theirs(alloc, &mut made, op, offices)?;
        rest = others;
    }
    Ok(made)
}

// The same, with the offices in any order.
fn theirs(alloc: Global, ops: &[Op], offices: &[Uuid]) -> Result<Vec<Op>, AllocError>
    ensures { IfOk result (λ made. made.items ≡ listed offices.now ops.now) }
{
    let mut sorted = Vec::from_slice(alloc, offices)?;
    sorted.sort_unstable();
    let made = theirs_of(alloc, ops, &sorted)?;
    Ok(made)
}

// The register of the operations that these offices made.
fn register_of(alloc: Global, ops: &[Op], offices: &[Uuid]) -> Result<Register, AllocError>
    requires { ById ops.now }
    ensures { IfOk result (λ r. r ≡ state (theirs offices.now (set.from_list {R = op_cmp} ops.now))) }
{
    let made = theirs(alloc, ops, offices)?;
    let seen = ids_of(alloc, &made)?;
    match Register::from_content(alloc, made, seen) {
        Ok(register) => Ok(register),
        Err(_) => Err(AllocError),
    }
}

/// The register of the operations that these offices made, of those that a register keeps. It has seen their ids and no others.
pub fn from_register(
    alloc: Global,
    register: &Register,
    offices: &[Uuid],
) -> Result<Register, AllocError>
    ensures { IfOk result (λ r. r ≡ from_offices offices.now register.now) }
{
    register_of(alloc, register.ops().as_slice(), offices)
}

/// The register of the operations that these offices made, of those of a piece. No basis is needed to join it.
pub fn from_piece(alloc: Global, piece: &Piece, offices: &[Uuid]) -> Result<Register, AllocError>
    ensures { IfOk result (λ r. r ≡ from_offices offices.now (part_of piece.now)) }
{
    register_of(alloc, piece.ops(), offices)
}
