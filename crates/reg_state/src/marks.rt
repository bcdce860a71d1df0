//! The marks that operations set, and the operations that marks make redundant.

ghost use Rattle.std.specs.Prelude.{◌≡◌, ◌&&◌, ◌++◌, [], ◌∷◌, true, OnOk, IfOk, IfSome, IfNone};
ghost use Rattle.reg_op.specs.Ids.{is_before};
ghost use Rattle.reg_op.specs.Finite.{any};
ghost use Rattle.reg_op.specs.Operations.{replaces};
ghost use Rattle.reg_op.specs.Status.{is_enter};
ghost use Rattle.reg_state.specs.MarkSets.{is_at};
ghost use Rattle.reg_state.specs.Marks.{least_marks, marks_of_body, op_of};

use crate::mark::{Mark, MarkTarget};
use crate::mark_set::Marks;
use reg_op::{Op, OpBody, OpId};
use std::alloc::{AllocError, Global};

/// Whether the target is marked.
pub fn is_marked(marks: &Marks, target: &MarkTarget) -> bool
    ensures { result ≡ any (λ m. is_at target.now m) marks.now }
{
    match marks.least(target) {
        Some(_) => true,
        None => false,
    }
}

// Whether the target is marked by a lesser id.
fn is_marked_before(marks: &Marks, target: &MarkTarget, id: OpId) -> bool
    ensures { result ≡ any (λ m. is_at target.now m && is_before m.id id) marks.now }
{
    match marks.least(target) {
        Some(least) => least.is_before(&id),
        None => false,
    }
}

/// Whether the marks make the operation redundant.
pub fn is_replaced(marks: &Marks, op: &Op) -> bool
    ensures { result ≡ any (λ m. replaces (op_of m) op.now) marks.now }
{
    let id = op.id();
    match op.body() {
        OpBody::Enter(_) => false,
        OpBody::Retire { entry } => is_marked_before(
            marks,
            &MarkTarget {
                entry: *entry,
                by: None,
            },
            id,
        ),
        OpBody::Supersede { old, newer } => is_marked(
            marks,
            &MarkTarget {
                entry: *old,
                by: None,
            },
        ) || is_marked_before(
            marks,
            &MarkTarget {
                entry: *old,
                by: Some(*newer),
            },
            id,
        ),
    }
}

/// The mark that an operation sets; an Enter sets none.
pub fn mark_of(op: &Op) -> Option<Mark>
    ensures some { IfSome result (λ mark. marks_of_body op.now.id op.now.body ≡ mark ∷ []) }
    ensures none { IfNone result (is_enter op.now.body ≡ true) }
{
    let id = op.id();
    match op.body() {
        OpBody::Enter(_) => None,
        OpBody::Retire { entry } => {
            let target = MarkTarget {
                entry: *entry,
                by: None,
            };
            Some(Mark { target, id })
        }
        OpBody::Supersede { old, newer } => {
            let target = MarkTarget {
                entry: *old,
                by: Some(*newer),
            };
            Some(Mark { target, id })
        }
    }
}

// Appends the mark that an operation sets.
fn push_mark(marks: &mut Vec<Mark>, op: &Op) -> Result<(), AllocError>
    ensures { OnOk result (marks.new.items ≡ marks.old.items ++ marks_of_body op.now.id op.now.body) }
{
    if let Some(Mark { target, id }) = mark_of(op) {
        marks.push(Mark { target, id })?;
    }
    Ok(())
}

/// The marks that operations set.
pub fn marks_of(alloc: Global, ops: &[Op]) -> Result<Marks, AllocError>
    ensures { IfOk result (λ marks. marks ≡ least_marks ops.now) }
{
    let mut marks = Vec::new(alloc);
    let mut rest = ops;
    while let [op, others @ ..] = rest {
        push_mark(&mut marks, op)?;
        rest = others;
    }
    Marks::of(alloc, marks)
}
