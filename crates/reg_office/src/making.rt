//! New operations: their numbers, their ids, and their register.

ghost use Rattle.std.specs.Prelude.{◌≡◌, ◌+◌, ◌<◌, ◌≤◌, nat_lt, map, length, All, None, IfOk, IfSome, IfNone};
ghost use Rattle.reg_op.specs.Set as set;
ghost use Rattle.reg_op.specs.Lists.{ById};
ghost use Rattle.reg_op.specs.Operations.{Op as Operation, IsOfItself, op_cmp};
ghost use Rattle.reg_op.specs.Contents.{state};
ghost use Rattle.reg_state.specs.Runs.{IsRun, ids_of_run};
ghost use Rattle.reg_op.specs.Kept.{first_dropped};
ghost use Rattle.reg_office.specs.Making.{greatest, numbered};

use reg_op::{Note, Op, OpBody, OpId};
use reg_state::{ContentFault, Register, Run, Seen};
use std::alloc::{AllocError, Global};
use uuid::Uuid;

/// An operation of each effect, all with the note, numbered from a first count.
pub fn ops_of(
    alloc: Global,
    replica: Uuid,
    first: u32,
    note: &Note,
    bodies: &[OpBody],
) -> Result<Vec<Op>, AllocError>
    requires positive { 0 < first }
    requires fits { first + length bodies.now ≤ 4294967296 }
    requires possible { All (λ b. ¬ (IsOfItself b)) bodies.now }
    ensures { IfOk result (λ ops. ops.items ≡ numbered replica first note.now bodies.now) }
{
    let mut ops = Vec::with_capacity(alloc, bodies.len())?;
    for (k, body) in bodies.iter().enumerate() {
        let Some(id) = OpId::new(replica, first + k as u32) else {
            unreachable!();
        };
        let body = body.try_clone(alloc)?;
        let noted = note.try_clone()?;
        let Ok(op) = Op::new(id, body, noted) else {
            unreachable!();
        };
        ops.push(op)?;
    }
    Ok(ops)
}

/// The ids of operations.
pub fn ids_of(alloc: Global, ops: &[Op]) -> Result<Vec<OpId>, AllocError>
    ensures { IfOk result (λ ids. ids.items ≡ map (λ (o : Operation). o.id) ops.now) }
{
    let mut ids = Vec::with_capacity(alloc, ops.len())?;
    for op in ops {
        ids.push(op.id())?;
    }
    Ok(ids)
}

/// The register of operations with the ids of a run.
pub fn register_of(alloc: Global, ops: Vec<Op>, run: Run) -> Result<Register, AllocError>
    requires run { IsRun run }
    requires by_id { ById ops.items }
    requires ids { map (λ (o : Operation). o.id) ops.items ≡ ids_of_run run }
    requires kept { first_dropped (set.from_list {R = op_cmp} ops.items) ≡ None }
    ensures { IfOk result (λ register. register ≡ state (set.from_list {R = op_cmp} ops.items)) }
{
    let mut seen = Seen::new(alloc);
    seen.add_run(run)?;
    match Register::from_content(alloc, ops, seen) {
        Ok(register) => {
            let _content = register.seen();
            Ok(register)
        }
        Err(ContentFault::Memory) => Err(AllocError),
        Err(ContentFault::NotKept(_)) => unreachable!(),
    }
}

/// The greatest count seen of the replica, or 0.
pub fn last_count(seen: &Seen, replica: Uuid) -> u32
    ensures { result ≡ greatest replica seen.now }
{
    seen.greatest(replica)
}

/// Whether the last of some new counts would be out of range.
pub fn is_spent(seen: &Seen, replica: Uuid, number: usize) -> bool
    ensures spent { result ≡ nat_lt 4294967295 (greatest replica seen.now + number) }
    ensures range { greatest replica seen.now ≤ 4294967295 }
{
    let left = u32::MAX - last_count(seen, replica);
    (left as usize) < number
}

/// The count of the first new operation, if the last one is in range.
pub fn next_count(seen: &Seen, replica: Uuid, number: usize) -> Option<u32>
    requires { 0 < number }
    ensures some { IfSome result (λ n. (n ≡ greatest replica seen.now + 1) × (greatest replica seen.now + number ≤ 4294967295)) }
    ensures none { IfNone result (4294967295 < greatest replica seen.now + number) }
{
    if is_spent(seen, replica, number) {
        return None;
    }
    Some(last_count(seen, replica) + 1)
}
