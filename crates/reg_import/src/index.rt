//! The entries that are not retired, by key.

ghost use Rattle.std.specs.Prelude.{◌≡◌, List, map, IfOk, OnOk};
ghost use Rattle.reg_report.specs.Seen.{row_seen};
ghost use Rattle.reg_import.specs.declared.standing_entry.StandingEntry.{StandingEntry};
ghost use Rattle.reg_import.specs.Known.{At, AreKnown, AreStanding, with_key, by_key};
ghost use Rattle.reg_import.specs.Index.{key_bytes, entries_seen, nothing_there, with_entry, Indexes};

use crate::entries_of_key::EntriesOfKey;
use crate::indexed_key::IndexedKey;
use crate::standing_entry::{StandingEntry, known_of, standing};
use reg_report::Row;
use reg_state::Register;
use std::alloc::{AllocError, Global};
use std::collections::BTreeMap;

/// Removes the entries of a key.
pub fn take(
    alloc: Global,
    index: &mut BTreeMap<IndexedKey, EntriesOfKey>,
    key: &IndexedKey,
) -> EntriesOfKey
    ensures found { (at : At) → Indexes index.old at → entries_seen result ≡ at (key_bytes key.now) }
    ensures rest { (at : At) → Indexes index.old at → Indexes index.new (with_key (key_bytes key.now) nothing_there at) }
{
    match index.remove(key) {
        Some(entries) => entries,
        None => EntriesOfKey::empty(alloc),
    }
}

/// Inserts the entries of a key.
pub fn put(
    index: &mut BTreeMap<IndexedKey, EntriesOfKey>,
    key: IndexedKey,
    entries: EntriesOfKey,
) -> Result<(), AllocError>
    ensures { OnOk result ((at : At) → Indexes index.old at → Indexes index.new (with_key (key_bytes key) (entries_seen entries) at)) }
{
    let _ = index.insert(key, entries)?;
    Ok(())
}

// Inserts an entry.
fn put_known(
    alloc: Global,
    index: &mut BTreeMap<IndexedKey, EntriesOfKey>,
    entry: StandingEntry,
) -> Result<(), AllocError>
    ensures { OnOk result ((at : At) → Indexes index.old at → Indexes index.new (with_entry entry at)) }
{
    let key = IndexedKey::of(alloc, &entry.key)?;
    let before = take(alloc, index, &key);
    let ours = before.ours;
    let entries = before.with(alloc, entry, ours)?;
    put(index, key, entries)?;
    Ok(())
}

// The index of the entries of rows.
fn index_of_rows(
    alloc: Global,
    rows: &[Row],
) -> Result<BTreeMap<IndexedKey, EntriesOfKey>, AllocError>
    ensures { IfOk result (λ index. (es : List StandingEntry) × AreKnown (map row_seen rows.now) es × Indexes index (by_key es)) }
{
    let mut index = BTreeMap::new(alloc);
    let mut rest = rows;
    while let Some((row, others)) = rest.split_first() {
        let entry = known_of(alloc, row)?;
        put_known(alloc, &mut index, entry)?;
        rest = others;
    }
    Ok(index)
}

/// The index of the register's entries that are not retired.
pub fn index_of(
    alloc: Global,
    register: &Register,
) -> Result<BTreeMap<IndexedKey, EntriesOfKey>, AllocError>
    ensures { IfOk result (λ index. (es : List StandingEntry) × AreStanding register.now.ops es × Indexes index (by_key es)) }
{
    let rows = standing(alloc, register)?;
    let index = index_of_rows(alloc, &rows)?;
    Ok(index)
}
