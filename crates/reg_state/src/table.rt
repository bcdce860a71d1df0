//! Lists of operations by id, and searches in them.

ghost use Rattle.std.specs.Prelude.{◌≡◌, ◌&&◌, ◌<◌, ◌≤◌, ℕ, List, true, false, not, IfSome, IfNone, OnOk, OnErr, is_some, filter, vec_len, vec_capacity};
ghost use Rattle.std.specs.List.{insert, list_any};
ghost use Rattle.reg_op.specs.Ids.{is_same, is_before};
ghost use Rattle.reg_op.specs.Operations.{Op as Operation, IsOperation, replaces};
ghost use Rattle.reg_op.specs.Status.{is_enter};
ghost use Rattle.reg_op.specs.Kept.{entering};
ghost use Rattle.reg_op.specs.Lists.{ById, has};
ghost use Rattle.reg_state.specs.Merge.{clash_in, first_off};

use crate::mark_set::Marks;
use crate::marks::is_replaced;
use reg_op::{Definition, Op, OpBody, OpId};
use std::alloc::AllocError;

fn is_earlier(op: &Op, id: OpId) -> bool
    ensures { result ≡ is_before op.now.id id }
{
    op.id().is_before(&id)
}

/// Whether the first has the lesser id.
pub fn comes_first(first: &Op, second: &Op) -> bool
    ensures { result ≡ is_before first.now.id second.now.id }
{
    first.id().is_before(&second.id())
}

// The definition that the operation enters, if it has this id.
fn definition_of(op: &Op, id: OpId) -> Option<&Definition>
    ensures told { is_some result ≡ (is_same id op.now.id && is_enter op.now.body) }
    ensures found { IfSome result (λ d. op.now ≡ entering id d.now op.now.note) }
{
    if !id.is_same(&op.id()) {
        return None;
    }
    match op.body() {
        OpBody::Enter(definition) => Some(definition),
        OpBody::Supersede { old: _, newer: _ } => None,
        OpBody::Retire { entry: _ } => None,
    }
}

/// Whether an operation has the id.
pub fn has_id(ops: &[Op], id: OpId) -> bool
    requires { ById ops.now }
    ensures { result ≡ list_any (λ o. is_same id o.id) ops.now }
{
    let at = ops.partition_point(|op| is_earlier(op, id));
    if at < ops.len() {
        return id.is_same(&ops[at].id());
    }
    false
}

/// Inserts an operation, whose id no other has.
pub fn put_op(ops: &mut Vec<Op>, op: Op) -> Result<(), AllocError>
    requires by_id { ById ops.old.items }
    requires absent { (q : Operation) → has ops.old.items q ≡ true → is_same op.id q.id ≡ false }
    ensures put { OnOk result ((i : ℕ) × (ops.new.items ≡ insert ops.old.items i op)) }
    ensures by_id { OnOk result (ById ops.new.items) }
    ensures err { OnErr result (ops.new.items ≡ ops.old.items) }
{
    ops.reserve(1)?;
    put_with_room(ops, op);
    Ok(())
}

/// The same if there is room.
pub fn put_with_room(ops: &mut Vec<Op>, op: Op)
    requires by_id { ById ops.old.items }
    requires absent { (q : Operation) → has ops.old.items q ≡ true → is_same op.id q.id ≡ false }
    requires room { vec_len ops.old < vec_capacity ops.old }
    ensures put { (i : ℕ) × (ops.new.items ≡ insert ops.old.items i op) }
    ensures by_id { ById ops.new.items }
{
    let id = op.id();
    let at = ops.partition_point(|other| is_earlier(other, id));
    // It cannot fail.
    if let Err(_) = ops.insert(at, op) {
        return;
    }
}

/// Removes the operations that this one makes redundant, unless it is known that there are none.
pub fn remove_replaced(ops: &mut Vec<Op>, op: &Op, some: bool)
    requires { some ≡ false → ops.old.items ≡ filter (λ o. not (replaces op.now o)) ops.old.items }
    ensures items { ops.new.items ≡ filter (λ o. not (replaces op.now o)) ops.old.items }
    ensures len { vec_len ops.new ≤ vec_len ops.old }
    ensures capacity { vec_capacity ops.new ≡ vec_capacity ops.old }
{
    if some {
        ops.retain(|other| !op.replaces(other));
    }
}

/// The definition that the operation with this id enters, among operations ordered by id.
pub fn definition_in(ops: &[Op], id: OpId) -> Option<&Definition>
    requires { ById ops.now }
    ensures told { is_some result ≡ list_any (λ o. is_same id o.id && is_enter o.body) ops.now }
    ensures found { IfSome result (λ d. (note : List ℕ) × (has ops.now (entering id d.now note) ≡ true)) }
{
    let at = ops.partition_point(|op| is_earlier(op, id));
    if at < ops.len() {
        return definition_of(&ops[at], id);
    }
    None
}

/// The least id of a redundant operation.
pub fn first_replaced(ops: &[Op], marks: &Marks) -> Option<OpId>
    ensures value { result ≡ first_off marks.now ops.now }
    ensures operations { IfNone result ((o : Operation) → has ops.now o ≡ true → IsOperation o) }
{
    let mut rest = ops;
    while let Some((op, others)) = rest.split_first() {
        let id = op.id();
        if is_replaced(marks, op) {
            return Some(id);
        }
        rest = others;
    }
    None
}

/// The least id that has another body in the second.
pub fn first_clash(left: &[Op], right: &[Op]) -> Option<OpId>
    requires left { ById left.now }
    requires right { ById right.now }
    ensures { result ≡ clash_in left.now right.now }
{
    let mut lefts = left;
    let mut rights = right;
    while let (Some((a, left_rest)), Some((b, right_rest))) = (
        lefts.split_first(),
        rights.split_first(),
    ) {
        if comes_first(a, b) {
            lefts = left_rest;
        } else if comes_first(b, a) {
            rights = right_rest;
        } else {
            if b.clashes(a) {
                return Some(a.id());
            }
            lefts = left_rest;
            rights = right_rest;
        }
    }
    None
}
