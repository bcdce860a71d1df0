//! The marks that operations set on entries, sorted, and those on one entry.

ghost use Rattle.std.specs.Prelude.{◌≡◌, ◌≤◌, ◌++◌, Bool, Some, true, take, drop, is_none, length, IfOk, OnOk};
ghost use Rattle.std.specs.List.{list_any, prefix_len};
ghost use Rattle.std.specs.List.Sorted.{IsSorted};
ghost use Rattle.reg_op.specs.Set as set;
ghost use Rattle.reg_op.specs.Ids.{Id, is_before};
ghost use Rattle.reg_op.specs.Operations.{Ops};
ghost use Rattle.reg_op.specs.Rows.{newer_of};
ghost use Rattle.reg_op.specs.Status.{enters, status};
ghost use Rattle.reg_report.specs.Marks.{targets_in, targets_of, is_on, AreMarksOn};
ghost use Rattle.reg_state.specs.MarkSets.{target_cmp};

use crate::distinct::distinct;
use reg_op::{Op, OpBody, OpId, Status};
use reg_state::MarkTarget;
use std::alloc::{AllocError, Global};

/// The marks that operations set, by entry.
pub fn marks_of(alloc: Global, ops: &[Op]) -> Result<Vec<MarkTarget>, AllocError>
    ensures sorted { IfOk result (λ marks. IsSorted target_cmp marks.items) }
    ensures marks { IfOk result (λ marks. (t : MarkTarget → Bool) → list_any t marks.items ≡ list_any t (targets_of ops.now)) }
{
    let mut marks = Vec::new(alloc);
    for op in ops {
        push_mark(&mut marks, op)?;
    }
    marks.sort_unstable();
    Ok(marks)
}

fn push_mark(marks: &mut Vec<MarkTarget>, op: &Op) -> Result<(), AllocError>
    ensures { OnOk result (marks.new.items ≡ marks.old.items ++ targets_in op.now.body) }
{
    match op.body() {
        OpBody::Enter(_) => {}
        OpBody::Retire { entry } => {
            marks.push(MarkTarget {
                entry: *entry,
                by: None,
            })?;
        }
        OpBody::Supersede { old, newer } => {
            marks.push(MarkTarget {
                entry: *old,
                by: Some(*newer),
            })?;
        }
    }
    Ok(())
}

fn is_below(mark: &MarkTarget, entry: OpId) -> bool
    ensures { result ≡ is_before mark.now.entry entry }
{
    mark.entry.is_before(&entry)
}

fn is_on(mark: &MarkTarget, entry: OpId) -> bool
    ensures { result ≡ is_on entry mark.now }
{
    entry.is_same(&mark.entry)
}

// The number of leading marks on earlier entries.
fn count_below(marks: &[MarkTarget], entry: OpId) -> usize
    ensures bound { result ≤ length marks.now }
    ensures count { result ≡ prefix_len (λ m. is_before m.entry entry) marks.now }
{
    marks
        .iter()
        .take_while(|mark| is_below(mark, entry))
        .count()
}

// The number of leading marks on the entry.
fn count_on(marks: &[MarkTarget], entry: OpId) -> usize
    ensures { result ≡ prefix_len (is_on entry) marks.now }
{
    marks.iter().take_while(|mark| is_on(mark, entry)).count()
}

/// What is left of sorted marks behind those on earlier entries.
pub fn skip_below(marks: &[MarkTarget], entry: OpId) -> &[MarkTarget]
    ensures { result.now ≡ drop (prefix_len (λ m. is_before m.entry entry) marks.now) marks.now }
{
    &marks[count_below(marks, entry)..]
}

/// The leading marks that are on the entry.
pub fn leading(marks: &[MarkTarget], entry: OpId) -> &[MarkTarget]
    ensures { result.now ≡ take (prefix_len (is_on entry) marks.now) marks.now }
{
    &marks[..count_on(marks, entry)]
}

fn retires(mark: &MarkTarget) -> bool
    ensures { result ≡ is_none mark.now.by }
{
    mark.by.is_none()
}

fn has_retirement(own: &[MarkTarget]) -> bool
    ensures { result ≡ list_any (λ m. is_none m.by) own.now }
{
    own.iter().any(|mark| retires(mark))
}

/// The status of an entry, by the marks on it.
pub fn status_by(own: &[MarkTarget]) -> Status
    ensures { (s : Ops) (e : Id) → enters s e ≡ true → AreMarksOn s e own.now → status s e ≡ Some result }
{
    if has_retirement(own) {
        return Status::Retired;
    }
    if own.is_empty() {
        return Status::Valid;
    }
    Status::Superseded
}

/// The entries that supersede an entry, by the marks on it. A retired entry has none.
pub fn newer_by(alloc: Global, own: &[MarkTarget]) -> Result<Vec<OpId>, AllocError>
    ensures { IfOk result (λ newer. (s : Ops) (e : Id) → AreMarksOn s e own.now → newer.items ≡ set.items (newer_of s e)) }
{
    let mut newer = Vec::new(alloc);
    for mark in own {
        let Some(id) = mark.by else {
            return Ok(Vec::new(alloc));
        };
        newer.push(id)?;
    }
    Ok(distinct(newer))
}
