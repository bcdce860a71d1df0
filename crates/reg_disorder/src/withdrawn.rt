//! Entries of keys whose entries are all retired.

ghost use Rattle.std.specs.Prelude.{◌↔◌, List, Contains, IsTrue, map, IfOk, OnOk};
ghost use Rattle.reg_op.specs.Rows.{Row as OneRow};
ghost use Rattle.reg_report.specs.Keys.{key_bytes};
ghost use Rattle.reg_report.specs.Seen.{row_seen};
ghost use Rattle.reg_disorder.specs.Disorders.{IsWithdrawn};
ghost use Rattle.reg_disorder.specs.Keys.{PutsKey, PutsRowKey, HasLiveKeys};
ghost use Rattle.reg_disorder.specs.Lists.{listed_seen, AreOf};

use crate::listed::{ListedEntry, push_where};
use crate::standing::is_retired;
use reg_report::{KeyText, Row, key_of};
use std::alloc::{AllocError, Global};
use std::collections::BTreeSet;

fn put_key<'a>(live: &mut BTreeSet<KeyText<'a>>, key: KeyText<'a>) -> Result<(), AllocError>
    ensures { OnOk result (PutsKey (key_bytes key.entry) live.old live.new) }
{
    live.insert(key)?;
    Ok(())
}

// Puts the key of a row into the set, unless its entry is retired.
fn put_row<'a>(live: &mut BTreeSet<KeyText<'a>>, row: &'a Row) -> Result<(), AllocError>
    ensures { OnOk result (PutsRowKey (row_seen row.now) live.old live.new) }
{
    if is_retired(row) {
        return Ok(());
    }
    put_key(live, key_of(row))?;
    Ok(())
}

// The keys of the entries that are not retired.
fn live_keys<'a>(alloc: Global, rows: &'a [Row]) -> Result<BTreeSet<KeyText<'a>>, AllocError>
    ensures { IfOk result (λ live. HasLiveKeys (map row_seen rows.now) live) }
{
    let mut live = BTreeSet::new(alloc);
    for row in rows {
        put_row(&mut live, row)?;
    }
    Ok(live)
}

// Whether the entry of a row is retired, and its key is none of these. Only a retired entry is looked up.
fn is_withdrawn<'a>(live: &BTreeSet<KeyText<'a>>, row: &'a Row) -> bool
    ensures { (rs : List OneRow) → HasLiveKeys rs live.now → Contains rs (row_seen row.now) → IsTrue result ↔ IsWithdrawn rs (row_seen row.now) }
{
    let key = key_of(row);
    if !is_retired(row) {
        return false;
    }
    !live.contains(&key)
}

/// The entries of keys whose entries are all retired.
pub fn withdrawn(alloc: Global, rows: &[Row]) -> Result<Vec<ListedEntry>, AllocError>
    ensures { IfOk result (λ made. AreOf (IsWithdrawn (map row_seen rows.now)) (map row_seen rows.now) (map listed_seen made.items)) }
{
    let live = live_keys(alloc, rows)?;
    let mut made = Vec::new(alloc);
    for row in rows {
        let wanted = is_withdrawn(&live, row);
        push_where(alloc, wanted, &mut made, row)?;
    }
    Ok(made)
}
