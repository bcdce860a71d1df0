//! Rows by their keys, so that each word is looked up and not compared with every row.

ghost use Rattle.std.specs.Prelude.{◌≡◌, ◌++◌, ◌∷◌, [], List, map, cond, None, IfOk, OnOk};
ghost use Rattle.std.specs.BTreeMap.{get};
ghost use Rattle.std.specs.Ordering.{is_eq};
ghost use Rattle.crs_value.specs.Parts.{lower};
ghost use Rattle.reg_op.specs.Rows.{Row as OneRow};
ghost use Rattle.reg_op.specs.Set.{Ascends};
ghost use Rattle.reg_report.specs.Conflicts.{bytes_of};
ghost use Rattle.reg_report.specs.Seen.{row_seen};
ghost use Rattle.reg_report.specs.Rows.{row_cmp};
ghost use Rattle.reg_keys.specs.Index.{spelling, IsSpelled, spelling_cmp, rows_in, Holds, IsIndex, AreSpelled};
ghost use Rattle.reg_keys.specs.declared.index.Spelling.{Spelling};

use crs_value::Key;
use reg_report::Row;
use std::alloc::{AllocError, Global};
use std::collections::BTreeMap;

/// A key, or a word that may name one, with its letters A to Z small.
#[derive(PartialEq, Eq, PartialOrd, Ord, Drop)]
pub struct Spelling {
    pub bytes: Vec<u8>,
}

/// The rows of each key, by entry. Keys that differ only in the case of letters A to Z share their rows.
#[derive(Drop)]
pub struct KeyIndex {
    pub by_key: BTreeMap<Spelling, Vec<Row>>,
}

fn spelled(alloc: Global, word: &[u8]) -> Result<Spelling, AllocError>
    ensures { IfOk result (λ s. s.bytes.items ≡ lower word.now) }
{
    let bytes = word.to_ascii_lowercase(alloc)?;
    Ok(Spelling { bytes })
}

fn spelling_of(alloc: Global, key: &Key) -> Result<Spelling, AllocError>
    ensures { IfOk result (λ s. s.bytes.items ≡ spelling (bytes_of key.now)) }
{
    let mut word = Vec::new(alloc);
    word.extend_from_slice(key.authority.as_bytes())?;
    word.push(b':')?;
    word.extend_from_slice(key.code.as_bytes())?;
    let spelling = spelled(alloc, &word)?;
    Ok(spelling)
}

fn spelling_of_row(alloc: Global, row: &Row) -> Result<Spelling, AllocError>
    ensures { IfOk result (λ s. IsSpelled s.bytes.items (row_seen row.now)) }
{
    let key = row.definition.key();
    let spelling = spelling_of(alloc, key)?;
    Ok(spelling)
}

// Removes the rows of a key.
fn take(alloc: Global, by_key: &mut BTreeMap<Spelling, Vec<Row>>, key: &Spelling) -> Vec<Row>
    ensures found { map row_seen result.items ≡ rows_in (get spelling_cmp by_key.old key.now) }
    ensures rest { (q : Spelling) → get spelling_cmp by_key.new q ≡ cond (is_eq (spelling_cmp key.now q)) None (get spelling_cmp by_key.old q) }
{
    match by_key.remove(key) {
        Some(rows) => rows,
        None => Vec::new(alloc),
    }
}

// Most keys have one entry, so the first row takes room for itself alone.
fn push_row(rows: &mut Vec<Row>, row: Row) -> Result<(), AllocError>
    ensures { OnOk result (map row_seen rows.new.items ≡ map row_seen rows.old.items ++ row_seen row ∷ []) }
{
    if rows.is_empty() {
        rows.reserve_exact(1)?;
    }
    rows.push(row)?;
    Ok(())
}

// Puts a row after those of its key.
fn put_row(
    alloc: Global,
    by_key: &mut BTreeMap<Spelling, Vec<Row>>,
    row: Row,
) -> Result<(), AllocError>
    ensures { (rs : List OneRow) → Holds by_key.old rs → OnOk result (Holds by_key.new (rs ++ row_seen row ∷ [])) }
{
    let spelling = spelling_of_row(alloc, &row)?;
    let mut rows = take(alloc, by_key, &spelling);
    push_row(&mut rows, row)?;
    let _ = by_key.insert(spelling, rows)?;
    Ok(())
}

/// The index of rows that are ordered by entry.
pub fn index_of(alloc: Global, rows: Vec<Row>) -> Result<KeyIndex, AllocError>
    requires { Ascends row_cmp (map row_seen rows.items) }
    ensures { IfOk result (λ index. IsIndex index (map row_seen rows.items)) }
{
    let mut by_key = BTreeMap::new(alloc);
    for row in rows {
        put_row(alloc, &mut by_key, row)?;
    }
    Ok(KeyIndex { by_key })
}

/// The rows whose keys are spelled as the word, by entry. All rows whose key it names are among them.
pub fn rows_of_word<'a>(
    alloc: Global,
    index: &'a KeyIndex,
    word: &[u8],
) -> Result<&'a [Row], AllocError>
    ensures { (rs : List OneRow) → IsIndex index.now rs → IfOk result (λ found. AreSpelled (lower word.now) rs (map row_seen found.now)) }
{
    let spelling = spelled(alloc, word)?;
    match index.by_key.get(&spelling) {
        Some(rows) => Ok(rows.as_slice()),
        None => Ok(&[]),
    }
}

/// The rows whose keys are spelled as this one, by entry. All rows with the key are among them.
pub fn rows_of_key<'a>(
    alloc: Global,
    index: &'a KeyIndex,
    key: &Key,
) -> Result<&'a [Row], AllocError>
    ensures { (rs : List OneRow) → IsIndex index.now rs → IfOk result (λ found. AreSpelled (spelling (bytes_of key.now)) rs (map row_seen found.now)) }
{
    let spelling = spelling_of(alloc, key)?;
    match index.by_key.get(&spelling) {
        Some(rows) => Ok(rows.as_slice()),
        None => Ok(&[]),
    }
}
