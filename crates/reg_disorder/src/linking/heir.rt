//! The heirs of entries: for a retired one, the least entry with its text, or else with its key.

ghost use Rattle.std.specs.Prelude.{◌≡◌, ◌++◌, ◌∷◌, [], List, map, IfOk, OnOk, IfSome, IfNone};
ghost use Rattle.reg_op.specs.Ids.{Id};
ghost use Rattle.reg_op.specs.Rows.{Row as OneRow, rows};
ghost use Rattle.reg_op.specs.Set.{Ascends};
ghost use Rattle.reg_report.specs.Rows.{row_cmp};
ghost use Rattle.reg_report.specs.Seen.{row_seen};
ghost use Rattle.reg_report.specs.Conflicts.{KeyBytes, HasKey};
ghost use Rattle.reg_disorder.specs.LinkHeirs.{IsFirst, HasText, IsOfKey, IsNextTo, IsHeir, HasTexts, HasKeys, rows_in, AreHeirs};

use crate::linking::link::stands;
use reg_op::OpId;
use reg_report::{KeyText, Row, find_row, is_live, key_of};
use reg_state::Register;
use std::alloc::{AllocError, Global};
use std::collections::BTreeMap;

/// The rows of a register, by id; and for each text and for each key that of the least entry that is not retired.
#[derive(Drop)]
pub struct Heirs<'a> {
    pub rows: &'a [Row],
    pub texts: BTreeMap<&'a [u8], &'a Row>,
    pub keys: BTreeMap<KeyText<'a>, &'a Row>,
}

// Puts the entry of a row before those of later rows, unless it is retired.
fn put_text<'a>(texts: &mut BTreeMap<&'a [u8], &'a Row>, row: &'a Row) -> Result<(), AllocError>
    ensures { (later : List OneRow) → HasTexts texts.old later → OnOk result (HasTexts texts.new (row_seen row.now ∷ later)) }
{
    if !is_live(row) {
        return Ok(());
    }
    let _ = texts.insert(row.definition.as_bytes(), row)?;
    Ok(())
}

// The same by its key.
fn put_key<'a>(keys: &mut BTreeMap<KeyText<'a>, &'a Row>, row: &'a Row) -> Result<(), AllocError>
    ensures { (later : List OneRow) → HasKeys keys.old later → OnOk result (HasKeys keys.new (row_seen row.now ∷ later)) }
{
    if !is_live(row) {
        return Ok(());
    }
    let key = key_of(row);
    let _ = keys.insert(key, row)?;
    Ok(())
}

/// The heirs among the rows of a register.
pub fn heirs_among<'a>(alloc: Global, rows: &'a [Row]) -> Result<Heirs<'a>, AllocError>
    requires { Ascends row_cmp (map row_seen rows.now) }
    ensures rows { IfOk result (λ heirs. rows_in heirs ≡ map row_seen rows.now) }
    ensures heirs { IfOk result AreHeirs }
{
    let mut texts = BTreeMap::new(alloc);
    let mut keys = BTreeMap::new(alloc);
    let mut rest = rows;
    while let Some((row, others)) = rest.split_last() {
        put_text(&mut texts, row)?;
        put_key(&mut keys, row)?;
        rest = others;
    }
    Ok(Heirs { rows, texts, keys })
}

// The least entry with the row's text.
fn text_heir<'a>(heirs: &Heirs<'a>, row: &'a Row) -> Option<OpId>
    requires { AreHeirs heirs.now }
    ensures { IsFirst (HasText (row_seen row.now).definition) (rows_in heirs.now) result }
{
    let text = row.definition.as_bytes();
    match heirs.texts.get(&text) {
        Some(row) => Some(row.entry),
        None => None,
    }
}

// The least entry with its key.
fn key_heir<'a>(heirs: &Heirs<'a>, row: &'a Row) -> Option<OpId>
    requires { AreHeirs heirs.now }
    ensures { (k : KeyBytes) × HasKey (row_seen row.now).definition k × IsFirst (IsOfKey k) (rows_in heirs.now) result }
{
    let key = key_of(row);
    match heirs.keys.get(&key) {
        Some(row) => Some(row.entry),
        None => None,
    }
}

// The least entry with the row's text, or else with its key.
fn next_to<'a>(heirs: &Heirs<'a>, row: &'a Row) -> Option<OpId>
    requires { AreHeirs heirs.now }
    ensures some { IfSome result (IsNextTo (rows_in heirs.now) (row_seen row.now)) }
    ensures none { IfNone result ((heir : Id) → ¬ (IsNextTo (rows_in heirs.now) (row_seen row.now) heir)) }
{
    match text_heir(heirs, row) {
        Some(heir) => Some(heir),
        None => key_heir(heirs, row),
    }
}

/// The heir of an entry, given the rows of the register.
pub fn heir_of(register: &Register, heirs: &Heirs<'_>, entry: OpId) -> Option<OpId>
    requires rows { rows_in heirs.now ≡ rows register.now.ops }
    requires heirs { AreHeirs heirs.now }
    ensures some { IfSome result (IsHeir register.now.ops entry) }
    ensures none { IfNone result ((heir : Id) → ¬ (IsHeir register.now.ops entry heir)) }
{
    if stands(register, entry) {
        return Some(entry);
    }
    let Some(row) = find_row(heirs.rows, entry) else {
        return None;
    };
    next_to(heirs, row)
}
