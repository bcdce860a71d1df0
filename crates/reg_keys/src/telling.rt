//! All entries that words select: an id selects its entry, and a key all its entries, retired ones included.

ghost use Rattle.std.specs.Prelude.{◌≡◌, ◌↔◌, ◌++◌, ◌∷◌, [], List, map, IsTrue, IfOk, OnOk, IfErr};
ghost use Rattle.reg_op.specs.Ids.{Id};
ghost use Rattle.reg_op.specs.Rows.{Row as OneRow, rows};
ghost use Rattle.reg_op.specs.Set.{Ascends};
ghost use Rattle.reg_report.specs.Seen.{row_seen};
ghost use Rattle.reg_report.specs.Rows.{row_cmp};
ghost use Rattle.reg_keys.specs.Index.{IsIndex};
ghost use Rattle.reg_keys.specs.Told.{TellsOf, IsUntold, TellOf, AreUntold};

use crate::answer::entries_of_key;
use crate::fault::KeyFault;
use crate::index::{KeyIndex, rows_of_word};
use crate::naming::index_of_register;
use reg_op::OpId;
use reg_report::Row;
use reg_state::Register;
use std::alloc::{AllocError, Global};

/// A list of only this id.
pub fn only(alloc: Global, id: OpId) -> Result<Vec<OpId>, AllocError>
    ensures { IfOk result (λ ids. ids.items ≡ id ∷ []) }
{
    let mut ids = Vec::new(alloc);
    ids.push(id)?;
    Ok(ids)
}

fn is_none(ids: &[OpId]) -> bool
    ensures { IsTrue result ↔ (ids.now ≡ []) }
{
    ids.is_empty()
}

fn told_by(alloc: Global, rows: &[Row], word: &[u8]) -> Result<Vec<OpId>, KeyFault>
    requires { Ascends row_cmp (map row_seen rows.now) }
    ensures ok { IfOk result (λ ids. TellsOf (map row_seen rows.now) word.now ids.items) }
    ensures fault { IfErr result (IsUntold (map row_seen rows.now) word.now) }
{
    if let Some(id) = OpId::parse(word) {
        return match only(alloc, id) {
            Ok(ids) => Ok(ids),
            Err(_) => Err(KeyFault::Memory),
        };
    }
    let ids = match entries_of_key(alloc, rows, word) {
        Ok(ids) => ids,
        Err(_) => return Err(KeyFault::Memory),
    };
    if is_none(&ids) {
        return Err(KeyFault::NoEntry);
    }
    Ok(ids)
}

// The same among indexed rows.
fn told_in(alloc: Global, index: &KeyIndex, word: &[u8]) -> Result<Vec<OpId>, KeyFault>
    requires { (rs : List OneRow) × IsIndex index.now rs }
    ensures ok { (rs : List OneRow) → IsIndex index.now rs → IfOk result (λ ids. TellsOf rs word.now ids.items) }
    ensures fault { (rs : List OneRow) → IsIndex index.now rs → IfErr result (IsUntold rs word.now) }
{
    let rows = match rows_of_word(alloc, index, word) {
        Ok(rows) => rows,
        Err(_) => return Err(KeyFault::Memory),
    };
    match told_by(alloc, rows, word) {
        Ok(ids) => Ok(ids),
        Err(fault) => Err(fault),
    }
}

// Appends the entries that the word selects.
fn push_told(
    alloc: Global,
    ids: &mut Vec<OpId>,
    index: &KeyIndex,
    word: &[u8],
) -> Result<(), KeyFault>
    requires { (rs : List OneRow) × IsIndex index.now rs }
    ensures ok { (rs : List OneRow) → IsIndex index.now rs → OnOk result ((few : List Id) × TellsOf rs word.now few × (ids.new.items ≡ ids.old.items ++ few)) }
    ensures fault { (rs : List OneRow) → IsIndex index.now rs → IfErr result (IsUntold rs word.now) }
{
    let few = match told_in(alloc, index, word) {
        Ok(few) => few,
        Err(fault) => return Err(fault),
    };
    match ids.extend_from_slice(&few) {
        Ok(()) => Ok(()),
        Err(_) => Err(KeyFault::Memory),
    }
}

fn told_among(alloc: Global, index: &KeyIndex, words: &[&[u8]]) -> Result<Vec<OpId>, KeyFault>
    requires { (rs : List OneRow) × IsIndex index.now rs }
    ensures ok { (rs : List OneRow) → IsIndex index.now rs → IfOk result (λ ids. TellOf rs (map (λ w. w.now) words.now) ids.items) }
    ensures fault { (rs : List OneRow) → IsIndex index.now rs → IfErr result (AreUntold rs (map (λ w. w.now) words.now)) }
{
    let mut ids = Vec::new(alloc);
    for word in words {
        push_told(alloc, &mut ids, index, word)?;
    }
    Ok(ids)
}

/// The entries that words select, in their order.
pub fn told(alloc: Global, register: &Register, words: &[&[u8]]) -> Result<Vec<OpId>, KeyFault>
    ensures ok { IfOk result (λ ids. TellOf (rows register.now.ops) (map (λ w. w.now) words.now) ids.items) }
    ensures fault { IfErr result (AreUntold (rows register.now.ops) (map (λ w. w.now) words.now)) }
{
    let index = match index_of_register(alloc, register) {
        Ok(index) => index,
        Err(_) => return Err(KeyFault::Memory),
    };
    match told_among(alloc, &index, words) {
        Ok(ids) => Ok(ids),
        Err(fault) => Err(fault),
    }
}
