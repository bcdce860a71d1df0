//! Entries of an authority whose keys no text has.

ghost use Rattle.std.specs.Prelude.{◌≡◌, ◌↔◌, ◌++◌, ◌∷◌, [], List, map, IsTrue, IfOk, OnOk, if◌then◌else◌};
ghost use Rattle.reg_op.specs.Rows.{rows};
ghost use Rattle.reg_report.specs.Conflicts.{KeyBytes};
ghost use Rattle.reg_report.specs.Seen.{row_seen};
ghost use Rattle.reg_import.specs.Readings.{keys_in};
ghost use Rattle.reg_import.specs.Gone.{HasKeys, IsGone, AreGone};

use crate::indexed_key::IndexedKey;
use crate::reading::ReadText;
use crate::standing_entry::stands;
use crs_value::search::is_alike;
use reg_report::{Row, rows};
use reg_state::Register;
use std::alloc::{AllocError, Global};
use std::collections::BTreeSet;

/// Adds the key of a text, if it was read.
pub fn put_key(
    alloc: Global,
    keys: &mut BTreeSet<IndexedKey>,
    reading: &ReadText,
) -> Result<(), AllocError>
    ensures { (before : List KeyBytes) → HasKeys keys.old before → OnOk result (HasKeys keys.new (before ++ keys_in (reading.now ∷ []))) }
{
    match reading {
        ReadText::Defined { definition: _, key } => {
            let key = IndexedKey::of(alloc, key)?;
            let _ = keys.insert(key)?;
            Ok(())
        }
        ReadText::Unread(_) => Ok(()),
    }
}

// Whether the entry is not retired, has the authority, and has none of these keys.
fn is_gone(
    alloc: Global,
    authority: &[u8],
    keys: &BTreeSet<IndexedKey>,
    row: &Row,
) -> Result<bool, AllocError>
    ensures { (texts : List KeyBytes) → HasKeys keys.now texts → IfOk result (λ gone. IsTrue gone ↔ IsGone authority.now texts (row_seen row.now)) }
{
    if !stands(row) {
        return Ok(false);
    }
    let key = row.definition.shared_key(alloc)?;
    if !is_alike(authority, key.get().authority.as_bytes()) {
        return Ok(false);
    }
    Ok(!keys.contains(&IndexedKey { key }))
}

// Appends the row, if it is gone.
fn push_where(wanted: bool, rows: &mut Vec<Row>, row: Row) -> Result<(), AllocError>
    ensures { OnOk result (map row_seen rows.new.items ≡ map row_seen rows.old.items ++ (if wanted then row_seen row ∷ [] else [])) }
{
    if wanted {
        rows.push(row)?;
    }
    Ok(())
}

fn keep_gone(
    alloc: Global,
    authority: &[u8],
    keys: &BTreeSet<IndexedKey>,
    rows: Vec<Row>,
) -> Result<Vec<Row>, AllocError>
    ensures { (texts : List KeyBytes) → HasKeys keys.now texts → IfOk result (λ gone. AreGone authority.now texts (map row_seen rows.items) (map row_seen gone.items)) }
{
    let mut gone = Vec::new(alloc);
    for row in rows {
        let wanted = is_gone(alloc, authority, keys, &row)?;
        push_where(wanted, &mut gone, row)?;
    }
    Ok(gone)
}

/// The rows of the entries that are not retired, have this authority (letters A to Z match in either case), and have none of
/// these keys, by id.
pub fn gone(
    alloc: Global,
    register: &Register,
    authority: &[u8],
    keys: &BTreeSet<IndexedKey>,
) -> Result<Vec<Row>, AllocError>
    ensures { (texts : List KeyBytes) → HasKeys keys.now texts → IfOk result (λ made. AreGone authority.now texts (rows register.now.ops) (map row_seen made.items)) }
{
    let rows = rows(alloc, register)?;
    let gone = keep_gone(alloc, authority, keys, rows)?;
    Ok(gone)
}
