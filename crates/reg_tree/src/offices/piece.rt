//! A piece as a register.

ghost use Rattle.std.specs.Prelude.{◌≡◌, IfOk};
ghost use Rattle.reg_op.specs.Pieces.{part_of};

use reg_op::Op;
use reg_state::{Piece, Register};
use std::alloc::{AllocError, Global};

fn copies(alloc: Global, ops: &[Op]) -> Result<Vec<Op>, AllocError>
    ensures { IfOk result (λ made. made.items ≡ ops.now) }
{
    let mut made = Vec::with_capacity(alloc, ops.len())?;
    for op in ops {
        made.push(op.try_clone(alloc)?)?;
    }
    Ok(made)
}

/// The register of what a piece brings: its operations, and the ids that it adds to those of its basis.
pub fn register_in(alloc: Global, piece: &Piece) -> Result<Register, AllocError>
    ensures { IfOk result (λ r. r ≡ part_of piece.now) }
{
    let ops = copies(alloc, piece.ops())?;
    let seen = piece.seen().try_clone(alloc)?;
    match Register::from_content(alloc, ops, seen) {
        Ok(register) => Ok(register),
        Err(_) => Err(AllocError),
    }
}
