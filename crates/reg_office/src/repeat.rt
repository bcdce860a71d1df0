//! The first entry that a command names twice.

ghost use Rattle.std.specs.Prelude.{◌≡◌, IfOk};
ghost use Rattle.std.specs.List.{list_any};
ghost use Rattle.reg_op.specs.Ids.{is_same};
ghost use Rattle.reg_office.specs.Repeats.{IsFirstRepeat};

use reg_op::OpId;
use std::alloc::{AllocError, Global};
use std::collections::BTreeSet;

/// The first index at which an entry is named again, or the number of entries.
pub fn first_repeat(alloc: Global, named: &[OpId]) -> usize
    ensures { IsFirstRepeat named.now result }
{
    match repeat_by_set(alloc, named) {
        Ok(at) => at,
        // A refusal must not depend on memory. This loop is slow, and gives the same result without allocating.
        Err(_) => repeat_by_walk(named),
    }
}

fn repeat_by_set(alloc: Global, named: &[OpId]) -> Result<usize, AllocError>
    ensures { IfOk result (IsFirstRepeat named.now) }
{
    let mut before = BTreeSet::new(alloc);
    for (at, entry) in named.iter().enumerate() {
        if !before.insert(*entry)? {
            return Ok(at);
        }
    }
    Ok(named.len())
}

fn repeat_by_walk(named: &[OpId]) -> usize
    ensures { IsFirstRepeat named.now result }
{
    for (at, entry) in named.iter().enumerate() {
        if is_among(&named[..at], *entry) {
            return at;
        }
    }
    named.len()
}

// Whether the entry is in the list.
fn is_among(entries: &[OpId], entry: OpId) -> bool
    ensures { result ≡ list_any (is_same entry) entries.now }
{
    entries.iter().any(|other| entry.is_same(other))
}
