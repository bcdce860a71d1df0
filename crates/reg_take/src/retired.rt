//! The entries that are retired in files of which only some operations are joined.

ghost use Rattle.std.specs.Prelude.{◌≡◌, ◌++◌, ◌∷◌, [], IfOk, OnOk};
ghost use Rattle.reg_take.specs.Files.{retired_by, retired_in};

use reg_file::Part;
use reg_op::{Op, OpBody, OpId};
use std::alloc::{AllocError, Global};
use uuid::Uuid;

// Appends the entry that an operation retires, if it retires one.
fn push_retired(made: &mut Vec<OpId>, op: &Op) -> Result<(), AllocError>
    ensures { OnOk result (made.new.items ≡ made.old.items ++ retired_by (op.now ∷ [])) }
{
    match op.body() {
        OpBody::Enter(_) => Ok(()),
        OpBody::Supersede { .. } => Ok(()),
        OpBody::Retire { entry } => {
            made.push(*entry)?;
            Ok(())
        }
    }
}

// The entries that operations retire.
fn retired_by(alloc: Global, ops: &[Op]) -> Result<Vec<OpId>, AllocError>
    ensures { IfOk result (λ made. made.items ≡ retired_by ops.now) }
{
    let mut made = Vec::new(alloc);
    for op in ops {
        push_retired(&mut made, op)?;
    }
    Ok(made)
}

/// The entries that are retired in a part, if offices are named: then other operations of the part are not joined.
pub(crate) fn retired_in(
    alloc: Global,
    offices: &[Uuid],
    part: &Part,
) -> Result<Vec<OpId>, AllocError>
    ensures { IfOk result (λ made. made.items ≡ retired_in offices.now part.now) }
{
    if offices.is_empty() {
        return Ok(Vec::new(alloc));
    }
    match part {
        Part::Register(register) => retired_by(alloc, register.ops().as_slice()),
        Part::Piece(piece) => retired_by(alloc, piece.ops()),
    }
}
