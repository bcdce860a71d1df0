//! The entries that meet a query.

ghost use Rattle.std.specs.Prelude.{◌≡◌, ◌↔◌, ◌++◌, ◌∷◌, [], List, map, IsTrue, IfOk, OnOk, if◌then◌else◌};
ghost use Rattle.reg_op.specs.Rows.{Row as OneRow};
ghost use Rattle.reg_report.specs.declared.row.Row.{Row as MadeRow};
ghost use Rattle.reg_report.specs.Seen.{row_seen};
ghost use Rattle.reg_query.specs.Found.{IsMet, AreFound, AreFoundIn, AreFoundIds, IsFoundText};
ghost use Rattle.reg_query.specs.Queries.{HasSome, IsResolved};

use crate::find::query::{Query, meets_title, meets_value};
use reg_keys::has_key;
use reg_op::OpId;
use reg_report::{Row, entries_text, rows};
use reg_state::Register;
use std::alloc::{AllocError, Global};

// Whether the row meets the query. `by_key` is whether an entry has the key that the query's word names. The text of the
// entry is read only if the query asks for more than a key, a name and a status.
fn is_met(alloc: Global, query: &Query<'_>, by_key: bool, row: &Row) -> Result<bool, AllocError>
    ensures { (rs : List OneRow) → IsResolved rs query.now by_key → IfOk result (IsMet rs query.now (row_seen row.now)) }
{
    let key = row.definition.key();
    let name = row.definition.name();
    if !meets_title(alloc, query, by_key, key, name.as_bytes(), row.status) {
        return Ok(false);
    }
    if !query.asks_value() {
        return Ok(true);
    }
    let crs = row.definition.crs(alloc)?;
    Ok(meets_value(alloc, query, crs.parts()))
}

// Appends the row if it meets the query.
fn push_where(wanted: bool, rows: &mut Vec<Row>, row: Row) -> Result<(), AllocError>
    ensures { OnOk result (map row_seen rows.new.items ≡ map row_seen rows.old.items ++ (if wanted then row_seen row ∷ [] else [])) }
{
    if wanted {
        rows.push(row)?;
    }
    Ok(())
}

fn keep_found(
    alloc: Global,
    rows: Vec<Row>,
    query: &Query<'_>,
    by_key: bool,
) -> Result<Vec<Row>, AllocError>
    ensures { (rs : List OneRow) → IsResolved rs query.now by_key
        → IfOk result (λ found. AreFound rs query.now (map row_seen rows.items) (map row_seen found.items)) }
{
    let mut found = Vec::new(alloc);
    for row in rows {
        let met = is_met(alloc, query, by_key, &row)?;
        push_where(met, &mut found, row)?;
    }
    Ok(found)
}

// Whether a row has the key that the query's word names.
fn is_by_key(query: &Query<'_>, rows: &[Row]) -> bool
    ensures { IsResolved (map row_seen rows.now) query.now result }
{
    match query.word {
        Some(word) => has_some(rows, word.as_bytes()),
        None => false,
    }
}

fn has_some(rows: &[Row], word: &[u8]) -> bool
    ensures { IsTrue result ↔ HasSome (map row_seen rows.now) word.now }
{
    let mut rest = rows;
    while let Some((row, others)) = rest.split_first() {
        if has_key(row, word) {
            return true;
        }
        rest = others;
    }
    false
}

/// The rows of the entries that meet the query, ordered by id.
pub fn found(alloc: Global, register: &Register, query: &Query<'_>) -> Result<Vec<Row>, AllocError>
    ensures { IfOk result (λ made. AreFoundIn register.now query.now (map row_seen made.items)) }
{
    let rows = rows(alloc, register)?;
    let by_key = is_by_key(query, &rows);
    let found = keep_found(alloc, rows, query, by_key)?;
    Ok(found)
}

/// The report of entries of these rows, with the header.
pub fn found_text(
    alloc: Global,
    register: &Register,
    query: &Query<'_>,
) -> Result<Vec<u8>, AllocError>
    ensures { IfOk result (λ text. IsFoundText query.now register.now text.items) }
{
    let rows = found(alloc, register, query)?;
    let text = entries_text(alloc, &rows)?;
    Ok(text)
}

fn entries_of(alloc: Global, rows: &[Row]) -> Result<Vec<OpId>, AllocError>
    ensures { IfOk result (λ ids. ids.items ≡ map (λ (r : MadeRow). r.entry) rows.now) }
{
    let mut ids = Vec::new(alloc);
    for row in rows {
        ids.push(row.entry)?;
    }
    Ok(ids)
}

/// The ids of these rows.
pub fn found_ids(
    alloc: Global,
    register: &Register,
    query: &Query<'_>,
) -> Result<Vec<OpId>, AllocError>
    ensures { IfOk result (λ ids. AreFoundIds query.now register.now ids.items) }
{
    let rows = found(alloc, register, query)?;
    let ids = entries_of(alloc, &rows)?;
    Ok(ids)
}
