//! The entries that words name.

ghost use Rattle.std.specs.Prelude.{◌≡◌, ◌++◌, ◌∷◌, [], List, map, IfOk, OnOk, IfErr};
ghost use Rattle.reg_op.specs.Ids.{Id};
ghost use Rattle.reg_op.specs.Rows.{Row as OneRow, rows};
ghost use Rattle.reg_op.specs.Set.{Ascends};
ghost use Rattle.reg_report.specs.Seen.{row_seen};
ghost use Rattle.reg_report.specs.Rows.{row_cmp};
ghost use Rattle.reg_keys.specs.Index.{IsIndex};
ghost use Rattle.reg_keys.specs.Named.{StandsFor, IsObjection, NamesOnly, IsNotOnly, IsNotOne, StandFor, Object};

use crate::answer::{entries_answering, first_answering, first_other};
use crate::fault::KeyFault;
use crate::index::{KeyIndex, index_of, rows_of_word};
use reg_op::OpId;
use reg_report::{Row, rows};
use reg_state::Register;
use std::alloc::{AllocError, Global};

/// The entry that a word names, among rows that are ordered by entry. An id names its entry. Any other word is a key, and
/// names the least of its entries that are not retired, if these have one text.
pub fn entry_of(rows: &[Row], word: &[u8]) -> Result<OpId, KeyFault>
    requires { Ascends row_cmp (map row_seen rows.now) }
    ensures ok { IfOk result (StandsFor (map row_seen rows.now) word.now) }
    ensures fault { IfErr result (IsObjection (map row_seen rows.now) word.now) }
{
    if let Some(id) = OpId::parse(word) {
        return Ok(id);
    }
    let Some((first, later)) = first_answering(rows, word) else {
        return Err(KeyFault::NoEntry);
    };
    match first_other(later, first, word) {
        Some(other) => Err(KeyFault::Several(other)),
        None => Ok(first.entry),
    }
}

/// The same among indexed rows.
pub fn entry_in(alloc: Global, index: &KeyIndex, word: &[u8]) -> Result<OpId, KeyFault>
    requires { (rs : List OneRow) × IsIndex index.now rs }
    ensures ok { (rs : List OneRow) → IsIndex index.now rs → IfOk result (StandsFor rs word.now) }
    ensures fault { (rs : List OneRow) → IsIndex index.now rs → IfErr result (IsObjection rs word.now) }
{
    let rows = match rows_of_word(alloc, index, word) {
        Ok(rows) => rows,
        Err(_) => return Err(KeyFault::Memory),
    };
    match entry_of(rows, word) {
        Ok(id) => Ok(id),
        Err(fault) => Err(fault),
    }
}

// The same for a command that changes entries: a key names its only entry that is not retired.
fn only_entry_of(alloc: Global, rows: &[Row], word: &[u8]) -> Result<OpId, KeyFault>
    requires { Ascends row_cmp (map row_seen rows.now) }
    ensures ok { IfOk result (NamesOnly (map row_seen rows.now) word.now) }
    ensures fault { IfErr result (IsNotOnly (map row_seen rows.now) word.now) }
{
    if let Some(id) = OpId::parse(word) {
        return Ok(id);
    }
    let ids = match entries_answering(alloc, rows, word) {
        Ok(ids) => ids,
        Err(_) => return Err(KeyFault::Memory),
    };
    match only(&ids) {
        Ok(id) => Ok(id),
        Err(fault) => Err(fault),
    }
}

// The id, if there is exactly one.
fn only(ids: &[OpId]) -> Result<OpId, KeyFault>
    ensures ok { IfOk result (λ id. ids.now ≡ id ∷ []) }
    ensures fault { IfErr result (IsNotOne ids.now) }
{
    let Some((first, others)) = ids.split_first() else {
        return Err(KeyFault::NoEntry);
    };
    match others.split_first() {
        Some((second, _)) => Err(KeyFault::Several(*second)),
        None => Ok(*first),
    }
}

/// The index of a register's rows.
pub fn index_of_register(alloc: Global, register: &Register) -> Result<KeyIndex, AllocError>
    ensures { IfOk result (λ index. IsIndex index (rows register.now.ops)) }
{
    let rows = rows(alloc, register)?;
    let index = index_of(alloc, rows)?;
    Ok(index)
}

/// The entries that some words name, in their order.
pub fn named(alloc: Global, register: &Register, words: &[&[u8]]) -> Result<Vec<OpId>, KeyFault>
    ensures ok { IfOk result (λ ids. StandFor (rows register.now.ops) (map (λ w. w.now) words.now) ids.items) }
    ensures fault { IfErr result (Object (rows register.now.ops) (map (λ w. w.now) words.now)) }
{
    let rows = match rows(alloc, register) {
        Ok(rows) => rows,
        Err(_) => return Err(KeyFault::Memory),
    };
    match entries_of(alloc, &rows, words) {
        Ok(ids) => Ok(ids),
        Err(fault) => Err(fault),
    }
}

// Appends the only entry that the word names.
fn push_named(alloc: Global, ids: &mut Vec<OpId>, rows: &[Row], word: &[u8]) -> Result<(), KeyFault>
    requires { Ascends row_cmp (map row_seen rows.now) }
    ensures ok { OnOk result ((e : Id) × NamesOnly (map row_seen rows.now) word.now e × (ids.new.items ≡ ids.old.items ++ e ∷ [])) }
    ensures fault { IfErr result (IsNotOnly (map row_seen rows.now) word.now) }
{
    let id = match only_entry_of(alloc, rows, word) {
        Ok(id) => id,
        Err(fault) => return Err(fault),
    };
    match ids.push(id) {
        Ok(()) => Ok(()),
        Err(_) => Err(KeyFault::Memory),
    }
}

/// The entries that some words name, in their order, among rows that are ordered by entry.
pub fn entries_of(alloc: Global, rows: &[Row], words: &[&[u8]]) -> Result<Vec<OpId>, KeyFault>
    requires { Ascends row_cmp (map row_seen rows.now) }
    ensures ok { IfOk result (λ ids. StandFor (map row_seen rows.now) (map (λ w. w.now) words.now) ids.items) }
    ensures fault { IfErr result (Object (map row_seen rows.now) (map (λ w. w.now) words.now)) }
{
    let mut ids = Vec::new(alloc);
    for word in words {
        push_named(alloc, &mut ids, rows, word)?;
    }
    Ok(ids)
}

/// The entry that a word names.
pub fn named_one(alloc: Global, register: &Register, word: &[u8]) -> Result<OpId, KeyFault>
    ensures ok { IfOk result (StandsFor (rows register.now.ops) word.now) }
    ensures fault { IfErr result (IsObjection (rows register.now.ops) word.now) }
{
    let rows = match rows(alloc, register) {
        Ok(rows) => rows,
        Err(_) => return Err(KeyFault::Memory),
    };
    match entry_of(&rows, word) {
        Ok(id) => Ok(id),
        Err(fault) => Err(fault),
    }
}
