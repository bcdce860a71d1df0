//! A piece, read over a register: what its maker had, as far as the register tells.

ghost use Rattle.std.specs.Prelude.{◌≡◌, ◌++◌, [], ◌∷◌, IfOk, OnOk};
ghost use Rattle.reg_tree.specs.Over.{known, known_in, piece_over};

use crate::needs::union;
use crate::offices::register_in;
use reg_op::Op;
use reg_op::joining::Join;
use reg_state::{Piece, Register, Seen};
use std::alloc::{AllocError, Global};

// Appends a copy of an operation, if its id is one of these.
fn push_known(alloc: Global, made: &mut Vec<Op>, op: &Op, seen: &Seen) -> Result<(), AllocError>
    ensures { OnOk result (made.new.items ≡ made.old.items ++ known seen.now (op.now ∷ [])) }
{
    if !seen.contains(op.id()) {
        return Ok(());
    }
    made.push(op.try_clone(alloc)?)?;
    Ok(())
}

// Copies of the operations that have these ids, in order.
fn known(alloc: Global, ops: &[Op], seen: &Seen) -> Result<Vec<Op>, AllocError>
    ensures { IfOk result (λ made. made.items ≡ known seen.now ops.now) }
{
    let mut made = Vec::new(alloc);
    let mut rest = ops;
    while let [op, others @ ..] = rest {
        push_known(alloc, &mut made, op, seen)?;
        rest = others;
    }
    Ok(made)
}

// The operations of a register that have these ids, in a register that has seen all of these.
fn known_in(alloc: Global, register: &Register, seen: Seen) -> Result<Register, AllocError>
    ensures { IfOk result (λ r. r ≡ known_in register.now seen) }
{
    let made = known(alloc, register.ops().as_slice(), &seen)?;
    match Register::from_content(alloc, made, seen) {
        Ok(register) => Ok(register),
        Err(_) => Err(AllocError),
    }
}

/// The operations of the piece, and those of the register that its maker has seen.
pub fn piece_over(alloc: Global, register: &Register, piece: &Piece) -> Result<Register, AllocError>
    ensures { IfOk result (λ r. r ≡ piece_over register.now piece.now) }
{
    let seen = union(alloc, piece.seen(), piece.basis())?;
    let part = known_in(alloc, register, seen)?;
    let brought = register_in(alloc, piece)?;
    match brought.join(alloc, &part) {
        Ok(all) => Ok(all),
        Err(_) => Err(AllocError),
    }
}
