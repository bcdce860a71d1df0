//! What a register gained that no row shows, and that cannot be undone.

ghost use Rattle.std.specs.Prelude.{◌≡◌, length, IfOk};
ghost use Rattle.std.specs.List.{count_by};
ghost use Rattle.reg_op.specs.Set as set;
ghost use Rattle.reg_op.specs.Rows.{awaited};
ghost use Rattle.reg_news.specs.Hidden.{is_of_another, was_retired, retires_of_others, IsLength, IsHidden};

use crate::gained::came::came;
use crate::gained::risen::{Risen, offices_risen};
use reg_file::{WriteFileFault, write_bytes};
use reg_op::{Op, OpBody, OpId};
use reg_report::{awaited, is_entered, is_retired};
use reg_state::Register;
use std::alloc::{AllocError, Global};

/// What a register gained that no row shows, and that cannot be undone.
#[derive(Drop)]
pub struct Hidden {
    /// Entries whose retirements came, by offices that had not entered them. An entry that was retired before is none of them.
    pub retired: usize,
    /// Awaited ids before.
    pub awaited_before: usize,
    /// Awaited ids now.
    pub awaited: usize,
    /// Offices whose greatest number rose by more than their operations that came.
    pub risen: Vec<Risen>,
    /// The bytes of the register's file before, unless it would be too large.
    pub bytes_before: Option<usize>,
    /// The bytes of its file now, unless it would be too large.
    pub bytes: Option<usize>,
}

// Whether the entry is of another office than the operation.
fn is_of_another(op: &Op, entry: OpId) -> bool
    ensures { result ≡ is_of_another op.now.id entry }
{
    !op.id().replica().cmp(&entry.replica()).is_eq()
}

// Whether the entry was retired before.
fn was_retired(old: &Register, entry: OpId) -> bool
    ensures { result ≡ was_retired old.now.ops entry }
{
    is_entered(old, entry) && is_retired(old, entry)
}

// Whether the operation retires an entry of another office that was not retired before.
fn retires_of_others(old: &Register, op: &Op) -> bool
    ensures { result ≡ retires_of_others old.now.ops op.now }
{
    match op.body() {
        OpBody::Enter(_) => false,
        OpBody::Supersede { .. } => false,
        OpBody::Retire { entry } => is_of_another(op, *entry) && !was_retired(old, *entry),
    }
}

fn count_retired(old: &Register, ops: &[Op]) -> usize
    ensures { result ≡ count_by (retires_of_others old.now.ops) ops.now }
{
    ops.iter().filter(|op| retires_of_others(old, op)).count()
}

fn count_awaited(alloc: Global, register: &Register) -> Result<usize, AllocError>
    ensures { IfOk result (λ n. n ≡ length (set.items (awaited register.now.ops))) }
{
    let ids = awaited(alloc, register)?;
    Ok(ids.len())
}

// The length of the register's file, unless it would be too large.
fn length_of(alloc: Global, register: &Register) -> Result<Option<usize>, AllocError>
    ensures { IfOk result (IsLength register.now) }
{
    match write_bytes(alloc, register) {
        Ok(bytes) => Ok(Some(bytes.len())),
        Err(WriteFileFault::TooLarge) => Ok(None),
        Err(_) => Err(AllocError),
    }
}

/// What the second register has of this that the first one has not.
pub fn hidden_in(alloc: Global, old: &Register, new: &Register) -> Result<Hidden, AllocError>
    ensures { IfOk result (IsHidden old.now new.now) }
{
    let came = came(alloc, old, new)?;
    let risen = offices_risen(alloc, old.seen(), &came)?;
    let awaited_before = count_awaited(alloc, old)?;
    let awaited = count_awaited(alloc, new)?;
    let bytes_before = length_of(alloc, old)?;
    let bytes = length_of(alloc, new)?;
    Ok(Hidden {
        retired: count_retired(old, came.ops().as_slice()),
        awaited_before,
        awaited,
        risen,
        bytes_before,
        bytes,
    })
}
