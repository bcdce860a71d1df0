//! The operations whose ids are outside a basis.

ghost use Rattle.std.specs.Prelude.{◌≡◌, ◌++◌, [], ◌∷◌, OnOk, IfOk};
ghost use Rattle.reg_state.specs.Pieces.{ops_outside};

use crate::seen::Seen;
use reg_op::Op;
use std::alloc::{AllocError, Global};

// Appends a copy of an operation, unless its id is in the basis.
fn push_outside(alloc: Global, out: &mut Vec<Op>, op: &Op, basis: &Seen) -> Result<(), AllocError>
    ensures { OnOk result (out.new.items ≡ out.old.items ++ ops_outside basis.now (op.now ∷ [])) }
{
    if basis.contains(op.id()) {
        return Ok(());
    }
    out.push(op.try_clone(alloc)?)?;
    Ok(())
}

/// Copies of the operations whose ids are outside a basis, in order.
pub fn ops_outside(alloc: Global, ops: &[Op], basis: &Seen) -> Result<Vec<Op>, AllocError>
    ensures { IfOk result (λ out. out.items ≡ ops_outside basis.now ops.now) }
{
    let mut out = Vec::new(alloc);
    let mut rest = ops;
    while let [op, others @ ..] = rest {
        push_outside(alloc, &mut out, op, basis)?;
        rest = others;
    }
    Ok(out)
}
