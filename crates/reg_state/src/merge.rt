//! The join of two lists of operations.

ghost use Rattle.std.specs.Prelude.{◌≡◌, true, false, ◌++◌, [], ◌∷◌, ◌&&◌, ◌||◌, IfOk, OnOk, filter};
ghost use Rattle.reg_op.specs.Operations.{Op as Operation};
ghost use Rattle.reg_op.specs.Lists.{ById, has};
ghost use Rattle.reg_state.specs.Merge.{Agree, stays, lasts, is_marked_off};

use crate::mark_set::Marks;
use crate::marks::is_replaced;
use crate::table::comes_first;
use reg_op::Op;
use std::alloc::{AllocError, Global};

// Appends a copy of an operation, unless it is redundant.
fn push_kept(alloc: Global, out: &mut Vec<Op>, op: &Op, marks: &Marks) -> Result<(), AllocError>
    ensures { OnOk result (out.new.items ≡ out.old.items ++ filter (lasts marks.now) (op.now ∷ [])) }
{
    if is_replaced(marks, op) {
        return Ok(());
    }
    out.push(op.try_clone(alloc)?)?;
    Ok(())
}

// Appends copies of operations, except redundant ones.
fn push_all_kept(
    alloc: Global,
    out: &mut Vec<Op>,
    ops: &[Op],
    marks: &Marks,
) -> Result<(), AllocError>
    ensures { OnOk result (out.new.items ≡ out.old.items ++ filter (lasts marks.now) ops.now) }
{
    let mut rest = ops;
    while let [op, others @ ..] = rest {
        push_kept(alloc, out, op, marks)?;
        rest = others;
    }
    Ok(())
}

/// Joins two lists by a walk along both, without redundant operations.
pub fn join_ops(
    alloc: Global,
    left: &[Op],
    left_marks: &Marks,
    right: &[Op],
    right_marks: &Marks,
) -> Result<Vec<Op>, AllocError>
    requires left { ById left.now }
    requires right { ById right.now }
    requires left_kept { (q : Operation) → has left.now q ≡ true → is_marked_off left_marks.now q ≡ false }
    requires right_kept { (q : Operation) → has right.now q ≡ true → is_marked_off right_marks.now q ≡ false }
    requires agree { Agree left.now right.now }
    ensures by_id { IfOk result (λ out. ById out.items) }
    ensures covered { IfOk result (λ out. (q : Operation) → has out.items q ≡ (stays left_marks.now right_marks.now q && (has left.now q || has right.now q))) }
{
    let mut out = Vec::new(alloc);
    let mut lefts = left;
    let mut rights = right;
    while let (Some((a, left_rest)), Some((b, right_rest))) = (
        lefts.split_first(),
        rights.split_first(),
    ) {
        if comes_first(a, b) {
            push_kept(alloc, &mut out, a, right_marks)?;
            lefts = left_rest;
        } else if comes_first(b, a) {
            push_kept(alloc, &mut out, b, left_marks)?;
            rights = right_rest;
        } else {
            push_kept(alloc, &mut out, a, right_marks)?;
            lefts = left_rest;
            rights = right_rest;
        }
    }
    if lefts.is_empty() {
        push_all_kept(alloc, &mut out, rights, left_marks)?;
        return Ok(out);
    }
    push_all_kept(alloc, &mut out, lefts, right_marks)?;
    Ok(out)
}
