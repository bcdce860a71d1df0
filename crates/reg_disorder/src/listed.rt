//! Entries with their keys, in order.

ghost use Rattle.std.specs.Prelude.{◌≡◌, ◌++◌, ◌∷◌, [], map, length, OnOk};
ghost use Rattle.std.specs.List.{dedup};
ghost use Rattle.std.specs.Ordering.{is_eq};
ghost use Rattle.reg_op.specs.Set as set;
ghost use Rattle.reg_report.specs.Conflicts.{key_cmp};
ghost use Rattle.reg_report.specs.Seen.{row_seen};
ghost use Rattle.reg_disorder.specs.Disorders.{Keyed, keyed_cmp};
ghost use Rattle.reg_disorder.specs.Lists.{listed_seen, key_seen, IsLineOf, Adds};

use crs_part::{Text, TryClone};
use reg_op::OpId;
use reg_report::Row;
use std::alloc::{AllocError, Global};
use std::cmp::Ordering;

/// An entry with its key.
#[derive(Drop)]
pub struct ListedEntry {
    pub authority: Text,
    pub code: Text,
    pub entry: OpId,
}

// By the bytes of the authority, then by those of the code, and then by the id.
fn compare(left: &ListedEntry, right: &ListedEntry) -> Ordering
    ensures { result ≡ keyed_cmp (listed_seen left.now) (listed_seen right.now) }
{
    compare_keys(left, right).then(left.entry.cmp(&right.entry))
}

fn compare_keys(left: &ListedEntry, right: &ListedEntry) -> Ordering
    ensures { result ≡ key_cmp (key_seen left.now) (key_seen right.now) }
{
    left.authority
        .as_bytes()
        .cmp(right.authority.as_bytes())
        .then(left.code.as_bytes().cmp(right.code.as_bytes()))
}

/// Whether they have the same key.
pub fn has_same_key(left: &ListedEntry, right: &ListedEntry) -> bool
    ensures { result ≡ is_eq (key_cmp (key_seen left.now) (key_seen right.now)) }
{
    compare_keys(left, right).is_eq()
}

fn is_same(left: &ListedEntry, right: &ListedEntry) -> bool
    ensures { result ≡ is_eq (keyed_cmp (listed_seen left.now) (listed_seen right.now)) }
{
    compare(left, right).is_eq()
}

/// Sorted, each once.
pub fn in_order(listed: Vec<ListedEntry>) -> Vec<ListedEntry>
    ensures { map listed_seen result.items ≡ set.items (set.from_list {R = keyed_cmp} (map listed_seen listed.items)) }
{
    let mut made = listed;
    made.sort_unstable_by(|left, right| compare(left, right));
    made.dedup_by(|later, kept| is_same(later, kept));
    made
}

fn push_listed(alloc: Global, made: &mut Vec<ListedEntry>, row: &Row) -> Result<(), AllocError>
    ensures { OnOk result ((l : Keyed) × IsLineOf (row_seen row.now) l × (map listed_seen made.new.items ≡ map listed_seen made.old.items ++ l ∷ [])) }
{
    let key = row.definition.key();
    made.push(ListedEntry {
        authority: key.authority.try_clone(alloc)?,
        code: key.code.try_clone(alloc)?,
        entry: row.entry,
    })?;
    Ok(())
}

/// Appends the entry of a row, if it is wanted.
pub fn push_where(
    alloc: Global,
    wanted: bool,
    made: &mut Vec<ListedEntry>,
    row: &Row,
) -> Result<(), AllocError>
    ensures { OnOk result (Adds wanted (row_seen row.now) (map listed_seen made.old.items) (map listed_seen made.new.items)) }
{
    if !wanted {
        return Ok(());
    }
    push_listed(alloc, made, row)?;
    Ok(())
}

/// The number of different keys of entries that are in order.
pub fn count_keys(listed: &[ListedEntry]) -> usize
    ensures { result ≡ length (dedup (λ a b. is_eq (key_cmp a b)) (map key_seen listed.now)) }
{
    let Some((first, others)) = listed.split_first() else {
        return 0;
    };
    let mut count = 1;
    let mut last = first;
    let mut rest = others;
    while let Some((next, later)) = rest.split_first() {
        if !has_same_key(next, last) {
            count += 1;
            last = next;
        }
        rest = later;
    }
    count
}
