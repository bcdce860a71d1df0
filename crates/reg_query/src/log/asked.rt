//! The entries whose operations are listed.

ghost use Rattle.std.specs.Prelude.{◌≡◌, map, find, not, IfOk};
ghost use Rattle.std.specs.List.{list_any};
ghost use Rattle.std.specs.List.Sorted.{IsSorted, IsPermutation};
ghost use Rattle.reg_op.specs.Ids.{is_same, id_cmp};
ghost use Rattle.reg_query.specs.Asked.{AreWanted, is_asked, first_unlogged};
ghost use Rattle.reg_query.specs.Log.{subject};
ghost use Rattle.reg_query.specs.declared.log.asked.Asked.{Asked as AskedOf};

use crate::log::order::subject;
use reg_op::{Op, OpId};
use std::alloc::{AllocError, Global};

/// The entries whose operations are listed.
#[derive(Clone, Copy)]
pub enum Asked<'a> {
    All,
    These(&'a [OpId]),
}

/// The same, with the entries in order, so that each is found by a binary search.
#[derive(Drop)]
pub(crate) enum WantedEntries {
    All,
    These(Vec<OpId>),
}

/// The entries in order.
pub(crate) fn in_order(alloc: Global, asked: &Asked<'_>) -> Result<WantedEntries, AllocError>
    ensures { IfOk result (λ wanted. AreWanted asked.now wanted) }
{
    match asked {
        Asked::All => Ok(WantedEntries::All),
        Asked::These(entries) => {
            let entries = sorted(alloc, entries)?;
            Ok(WantedEntries::These(entries))
        }
    }
}

/// Whether the operations of the entry are listed.
pub(crate) fn is_wanted(wanted: &WantedEntries, entry: OpId) -> bool
    requires { (asked : AskedOf) × AreWanted asked wanted.now }
    ensures { (asked : AskedOf) → AreWanted asked wanted.now → result ≡ is_asked asked entry }
{
    match wanted {
        WantedEntries::All => true,
        WantedEntries::These(entries) => is_among(entries, entry),
    }
}

fn sorted(alloc: Global, ids: &[OpId]) -> Result<Vec<OpId>, AllocError>
    ensures same { IfOk result (λ made. IsPermutation ids.now made.items) }
    ensures order { IfOk result (λ made. IsSorted id_cmp made.items) }
{
    let mut made = Vec::from_slice(alloc, ids)?;
    made.sort_unstable();
    Ok(made)
}

// Whether the id is in the list.
fn is_among(ids: &[OpId], id: OpId) -> bool
    requires { IsSorted id_cmp ids.now }
    ensures { result ≡ list_any (is_same id) ids.now }
{
    ids.binary_search(&id).is_ok()
}

// The entries that the operations are about, in the order of the operations.
fn subjects(alloc: Global, ops: &[Op]) -> Result<Vec<OpId>, AllocError>
    ensures { IfOk result (λ ids. ids.items ≡ map subject ops.now) }
{
    let mut ids = Vec::with_capacity(alloc, ops.len())?;
    let mut rest = ops;
    while let Some((op, others)) = rest.split_first() {
        ids.push(subject(op))?;
        rest = others;
    }
    Ok(ids)
}

// The first of these entries that is not in the list.
fn first_outside(entries: &[OpId], ids: &[OpId]) -> Option<OpId>
    requires { IsSorted id_cmp ids.now }
    ensures { result ≡ find (λ e. not (list_any (is_same e) ids.now)) entries.now }
{
    let mut rest = entries;
    while let Some((entry, others)) = rest.split_first() {
        if !is_among(ids, *entry) {
            return Some(*entry);
        }
        rest = others;
    }
    None
}

/// The first of these entries without an operation.
pub fn first_unlogged(
    alloc: Global,
    ops: &[Op],
    entries: &[OpId],
) -> Result<Option<OpId>, AllocError>
    ensures { IfOk result (λ first. first ≡ first_unlogged ops.now entries.now) }
{
    let mut ids = subjects(alloc, ops)?;
    ids.sort_unstable();
    Ok(first_outside(entries, &ids))
}
