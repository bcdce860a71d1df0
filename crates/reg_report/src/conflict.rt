//! Keys in conflict.

ghost use Rattle.std.specs.Prelude.{◌≡◌, ◌++◌, ◌∷◌, map, IfOk, OnOk};
ghost use Rattle.std.specs.List.{list_any, prefix_len};
ghost use Rattle.std.specs.List.Sorted.{IsSorted};
ghost use Rattle.reg_op.specs.Rows.{rows};
ghost use Rattle.reg_report.specs.declared.contender.Contender.{Contender as OneContender};
ghost use Rattle.reg_report.specs.Conflicts.{AreConflicts};
ghost use Rattle.reg_report.specs.Contenders.{contender_cmp, has_same_key, has_other_text, conflict_at, conflict_seen, Tells};
ghost use Rattle.reg_report.specs.Seen.{row_seen};

use crate::contender::{Contender, contenders_of, has_other_text, has_same_key};
use crate::distinct::distinct;
use crate::row::{Row, rows};
use crs_part::{Text, TryClone};
use reg_op::OpId;
use reg_state::Register;
use std::alloc::{AllocError, Global};

/// A key with two entries, neither of them retired, that have different texts.
#[derive(Drop)]
pub struct Conflict {
    pub authority: Text,
    pub code: Text,
    /// All its entries that are not retired, by id.
    pub entries: Vec<OpId>,
}

/// The keys in conflict, ordered by the bytes of the authority and then of the code.
pub fn conflicts(alloc: Global, register: &Register) -> Result<Vec<Conflict>, AllocError>
    ensures { IfOk result (λ made. AreConflicts (rows register.now.ops) (map conflict_seen made.items)) }
{
    let rows = rows(alloc, register)?;
    let made = conflicts_in(alloc, &rows)?;
    Ok(made)
}

/// The same among rows.
pub fn conflicts_in(alloc: Global, rows: &[Row]) -> Result<Vec<Conflict>, AllocError>
    ensures { IfOk result (λ made. AreConflicts (map row_seen rows.now) (map conflict_seen made.items)) }
{
    let contenders = contenders_of(alloc, rows)?;
    let made = conflicts_among(alloc, &contenders)?;
    Ok(made)
}

// The keys with different texts.
fn conflicts_among(alloc: Global, contenders: &[Contender]) -> Result<Vec<Conflict>, AllocError>
    requires { IsSorted contender_cmp contenders.now }
    ensures { IfOk result (λ made. Tells contenders.now (map conflict_seen made.items)) }
{
    let mut made = Vec::new(alloc);
    let mut rest = contenders;
    while let Some((first, others)) = rest.split_first() {
        let count = leading(first, others);
        push_conflict(alloc, &mut made, first, &others[..count])?;
        rest = &others[count..];
    }
    Ok(made)
}

// The number of leading contenders with the key.
fn leading(first: &Contender, others: &[Contender]) -> usize
    ensures { result ≡ prefix_len (has_same_key first.now) others.now }
{
    others
        .iter()
        .take_while(|other| has_same_key(first, other))
        .count()
}

// Whether some have another text.
fn differ(first: &Contender, others: &[Contender]) -> bool
    ensures { result ≡ list_any (has_other_text first.now) others.now }
{
    others.iter().any(|other| has_other_text(first, other))
}

// Appends the key of some contenders, if their texts differ.
fn push_conflict(
    alloc: Global,
    conflicts: &mut Vec<Conflict>,
    first: &Contender,
    others: &[Contender],
) -> Result<(), AllocError>
    ensures { OnOk result (map conflict_seen conflicts.new.items ≡ map conflict_seen conflicts.old.items ++ conflict_at first.now others.now) }
{
    if !differ(first, others) {
        return Ok(());
    }
    let entries = entries_of(alloc, first, others)?;
    let key = first.key.get();
    conflicts.push(Conflict {
        authority: key.authority.try_clone(alloc)?,
        code: key.code.try_clone(alloc)?,
        entries: distinct(entries),
    })?;
    Ok(())
}

fn entries_of(
    alloc: Global,
    first: &Contender,
    others: &[Contender],
) -> Result<Vec<OpId>, AllocError>
    ensures { IfOk result (λ entries. entries.items ≡ map (λ (c : OneContender). c.entry) (first.now ∷ others.now)) }
{
    let mut entries = Vec::new(alloc);
    entries.push(first.entry)?;
    for other in others {
        entries.push(other.entry)?;
    }
    Ok(entries)
}
