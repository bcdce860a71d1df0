//! The entries of a key.

ghost use Rattle.std.specs.Prelude.{◌≡◌, ◌≢◌, ◌↔◌, map, false, Contains, IsTrue, IfOk, OnOk, IfSome, IfNone};
ghost use Rattle.reg_op.specs.Rows.{Row as OneRow};
ghost use Rattle.reg_op.specs.Set.{Ascends};
ghost use Rattle.reg_report.specs.Seen.{row_seen};
ghost use Rattle.reg_report.specs.Rows.{row_cmp};
ghost use Rattle.reg_keys.specs.Named.{HasWord, Answers, AllHave, AreEntries, AddsEntry, IsFirstAnswer, IsFirstOther};

use crate::word::names_key;
use reg_op::OpId;
use reg_report::{Row, is_live};
use std::alloc::{AllocError, Global};

/// Whether the word is the key of the row.
pub fn has_key(row: &Row, word: &[u8]) -> bool
    ensures { IsTrue result ↔ HasWord word.now (row_seen row.now) }
{
    let key = row.definition.key();
    names_key(word, key)
}

// Whether the word is the key of the row, and the entry is not retired.
fn answers(row: &Row, word: &[u8]) -> bool
    ensures { IsTrue result ↔ Answers word.now (row_seen row.now) }
{
    has_key(row, word) && is_live(row)
}

/// The first row that answers the word, and the rows after it.
pub fn first_answering<'a>(rows: &'a [Row], word: &[u8]) -> Option<(&'a Row, &'a [Row])>
    ensures found { IfSome result (λ found. IsFirstAnswer word.now (map row_seen rows.now) (row_seen found.0.now) (map row_seen found.1.now)) }
    ensures none { IfNone result ((r : OneRow) → Contains (map row_seen rows.now) r → ¬ (Answers word.now r)) }
{
    let mut rest = rows;
    while let Some((row, others)) = rest.split_first() {
        if answers(row, word) {
            return Some((row, others));
        }
        rest = others;
    }
    None
}

fn has_text_of(row: &Row, first: &Row) -> bool
    ensures { IsTrue result ↔ ((row_seen row.now).definition ≡ (row_seen first.now).definition) }
{
    row.definition.as_bytes() == first.definition.as_bytes()
}

// Whether the row answers the word, and has another text than the first one.
fn is_other(row: &Row, first: &Row, word: &[u8]) -> bool
    ensures other { IsTrue result ↔ (Answers word.now (row_seen row.now) × ((row_seen row.now).definition ≢ (row_seen first.now).definition)) }
    ensures alike { result ≡ false → Answers word.now (row_seen row.now) → (row_seen row.now).definition ≡ (row_seen first.now).definition }
{
    answers(row, word) && !has_text_of(row, first)
}

/// The entry of the first row that answers the word and has another text than the first one.
pub fn first_other(rows: &[Row], first: &Row, word: &[u8]) -> Option<OpId>
    ensures found { IfSome result (IsFirstOther word.now (row_seen first.now).definition (map row_seen rows.now)) }
    ensures none { IfNone result (AllHave (row_seen first.now).definition (map row_seen rows.now) word.now) }
{
    let mut rest = rows;
    while let Some((row, others)) = rest.split_first() {
        if is_other(row, first, word) {
            return Some(row.entry);
        }
        rest = others;
    }
    None
}

fn push_answer(ids: &mut Vec<OpId>, word: &[u8], row: &Row) -> Result<(), AllocError>
    ensures { OnOk result (AddsEntry (Answers word.now) (row_seen row.now) ids.old.items ids.new.items) }
{
    if !answers(row, word) {
        return Ok(());
    }
    ids.push(row.entry)?;
    Ok(())
}

/// The entries of this key that are not retired, by id. The rows are ordered by entry.
pub fn entries_answering(alloc: Global, rows: &[Row], word: &[u8]) -> Result<Vec<OpId>, AllocError>
    requires { Ascends row_cmp (map row_seen rows.now) }
    ensures { IfOk result (λ ids. AreEntries (Answers word.now) (map row_seen rows.now) ids.items) }
{
    let mut ids = Vec::new(alloc);
    let mut rest = rows;
    while let Some((row, others)) = rest.split_first() {
        push_answer(&mut ids, word, row)?;
        rest = others;
    }
    Ok(ids)
}

fn push_of_key(ids: &mut Vec<OpId>, word: &[u8], row: &Row) -> Result<(), AllocError>
    ensures { OnOk result (AddsEntry (HasWord word.now) (row_seen row.now) ids.old.items ids.new.items) }
{
    if !has_key(row, word) {
        return Ok(());
    }
    ids.push(row.entry)?;
    Ok(())
}

/// All entries of this key, retired ones too, by id. The rows are ordered by entry.
pub fn entries_of_key(alloc: Global, rows: &[Row], word: &[u8]) -> Result<Vec<OpId>, AllocError>
    requires { Ascends row_cmp (map row_seen rows.now) }
    ensures { IfOk result (λ ids. AreEntries (HasWord word.now) (map row_seen rows.now) ids.items) }
{
    let mut ids = Vec::new(alloc);
    let mut rest = rows;
    while let Some((row, others)) = rest.split_first() {
        push_of_key(&mut ids, word, row)?;
        rest = others;
    }
    Ok(ids)
}
