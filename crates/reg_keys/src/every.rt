//! The entries that words stand for in commands that change entries.

ghost use Rattle.std.specs.Prelude.{◌≡◌, ◌++◌, ◌∷◌, [], List, map, IfOk, OnOk, IfErr};
ghost use Rattle.reg_op.specs.Ids.{Id};
ghost use Rattle.reg_op.specs.Set.{Ascends};
ghost use Rattle.reg_report.specs.Seen.{row_seen};
ghost use Rattle.reg_report.specs.Rows.{row_cmp};
ghost use Rattle.reg_keys.specs.Named.{StandsFor, IsObjection};
ghost use Rattle.reg_keys.specs.Every.{StandsForEvery, StandForEvery, StandForEach, FailsAt};

use crate::answer::entries_answering;
use crate::fault::KeyFault;
use crate::naming::entry_of;
use crate::telling::only;
use reg_op::OpId;
use reg_report::Row;
use std::alloc::Global;

/// The first of some words that stands for no entry: its index, and why.
#[derive(Clone, Copy, Debug, PartialEq, Eq)]
pub struct WordFault {
    pub word: usize,
    pub fault: KeyFault,
}

/// All entries that a word stands for, by id, among rows that are ordered by entry. An id stands for its entry. Any other word is a
/// key, and stands for all its entries that are not retired, if these have one text.
pub fn every_of(alloc: Global, rows: &[Row], word: &[u8]) -> Result<Vec<OpId>, KeyFault>
    requires { Ascends row_cmp (map row_seen rows.now) }
    ensures ok { IfOk result (λ ids. StandsForEvery (map row_seen rows.now) word.now ids.items) }
    ensures fault { IfErr result (IsObjection (map row_seen rows.now) word.now) }
{
    if let Some(id) = OpId::parse(word) {
        return match only(alloc, id) {
            Ok(ids) => Ok(ids),
            Err(_) => Err(KeyFault::Memory),
        };
    }
    let _least = match entry_of(rows, word) {
        Ok(least) => least,
        Err(fault) => return Err(fault),
    };
    match entries_answering(alloc, rows, word) {
        Ok(ids) => Ok(ids),
        Err(_) => Err(KeyFault::Memory),
    }
}

// Appends all entries that the word at this index stands for.
fn push_every(
    alloc: Global,
    ids: &mut Vec<OpId>,
    rows: &[Row],
    at: usize,
    word: &[u8],
) -> Result<(), WordFault>
    requires { Ascends row_cmp (map row_seen rows.now) }
    ensures ok { OnOk result ((few : List Id) × StandsForEvery (map row_seen rows.now) word.now few × (ids.new.items ≡ ids.old.items ++ few)) }
    ensures fault { IfErr result (λ f. (f.word ≡ at) × IsObjection (map row_seen rows.now) word.now f.fault) }
{
    let few = match every_of(alloc, rows, word) {
        Ok(few) => few,
        Err(fault) => return Err(WordFault { word: at, fault }),
    };
    match ids.extend_from_slice(&few) {
        Ok(()) => Ok(()),
        Err(_) => Err(WordFault {
            word: at,
            fault: KeyFault::Memory,
        }),
    }
}

/// All entries that some words stand for, word by word, among rows that are ordered by entry.
pub fn every_of_words(alloc: Global, rows: &[Row], words: &[&[u8]]) -> Result<Vec<OpId>, WordFault>
    requires { Ascends row_cmp (map row_seen rows.now) }
    ensures ok { IfOk result (λ ids. StandForEvery (map row_seen rows.now) (map (λ w. w.now) words.now) ids.items) }
    ensures fault { IfErr result (λ f. FailsAt (map row_seen rows.now) 0 (map (λ w. w.now) words.now) f.word f.fault) }
{
    let mut ids = Vec::new(alloc);
    for (at, word) in words.iter().enumerate() {
        push_every(alloc, &mut ids, rows, at, *word)?;
    }
    Ok(ids)
}

// Appends the entry that the word at this index stands for.
fn push_entry(ids: &mut Vec<OpId>, rows: &[Row], at: usize, word: &[u8]) -> Result<(), WordFault>
    requires { Ascends row_cmp (map row_seen rows.now) }
    ensures ok { OnOk result ((e : Id) × StandsFor (map row_seen rows.now) word.now e × (ids.new.items ≡ ids.old.items ++ e ∷ [])) }
    ensures fault { IfErr result (λ f. (f.word ≡ at) × IsObjection (map row_seen rows.now) word.now f.fault) }
{
    let id = match entry_of(rows, word) {
        Ok(id) => id,
        Err(fault) => return Err(WordFault { word: at, fault }),
    };
    match ids.push(id) {
        Ok(()) => Ok(()),
        Err(_) => Err(WordFault {
            word: at,
            fault: KeyFault::Memory,
        }),
    }
}

/// The entry that each of some words stands for, among rows that are ordered by entry: for a key the least.
pub fn each_of_words(alloc: Global, rows: &[Row], words: &[&[u8]]) -> Result<Vec<OpId>, WordFault>
    requires { Ascends row_cmp (map row_seen rows.now) }
    ensures ok { IfOk result (λ ids. StandForEach (map row_seen rows.now) (map (λ w. w.now) words.now) ids.items) }
    ensures fault { IfErr result (λ f. FailsAt (map row_seen rows.now) 0 (map (λ w. w.now) words.now) f.word f.fault) }
{
    let mut ids = Vec::new(alloc);
    for (at, word) in words.iter().enumerate() {
        push_entry(&mut ids, rows, at, *word)?;
    }
    Ok(ids)
}
