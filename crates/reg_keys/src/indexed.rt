//! The entries that words stand for in commands that change entries, among indexed rows.

ghost use Rattle.std.specs.Prelude.{◌≡◌, ◌++◌, ◌∷◌, [], List, map, IfOk, OnOk, IfErr};
ghost use Rattle.reg_op.specs.Ids.{Id};
ghost use Rattle.reg_op.specs.Rows.{Row as OneRow};
ghost use Rattle.reg_keys.specs.Index.{IsIndex};
ghost use Rattle.reg_keys.specs.Named.{StandsFor, IsObjection};
ghost use Rattle.reg_keys.specs.Every.{StandsForEvery, StandForEvery, StandForEach, FailsAt};

use crate::every::{WordFault, every_of};
use crate::fault::KeyFault;
use crate::index::{KeyIndex, rows_of_word};
use crate::naming::entry_in;
use reg_op::OpId;
use std::alloc::Global;

/// All entries that a word stands for, by id.
pub fn every_in(alloc: Global, index: &KeyIndex, word: &[u8]) -> Result<Vec<OpId>, KeyFault>
    requires { (rs : List OneRow) × IsIndex index.now rs }
    ensures ok { (rs : List OneRow) → IsIndex index.now rs → IfOk result (λ ids. StandsForEvery rs word.now ids.items) }
    ensures fault { (rs : List OneRow) → IsIndex index.now rs → IfErr result (IsObjection rs word.now) }
{
    let rows = match rows_of_word(alloc, index, word) {
        Ok(rows) => rows,
        Err(_) => return Err(KeyFault::Memory),
    };
    match every_of(alloc, rows, word) {
        Ok(ids) => Ok(ids),
        Err(fault) => Err(fault),
    }
}

// Appends all entries that the word at this index of the words stands for.
fn push_every(
    alloc: Global,
    ids: &mut Vec<OpId>,
    index: &KeyIndex,
    at: usize,
    word: &[u8],
) -> Result<(), WordFault>
    requires { (rs : List OneRow) × IsIndex index.now rs }
    ensures ok { (rs : List OneRow) → IsIndex index.now rs → OnOk result ((few : List Id) × StandsForEvery rs word.now few × (ids.new.items ≡ ids.old.items ++ few)) }
    ensures fault { (rs : List OneRow) → IsIndex index.now rs → IfErr result (λ f. (f.word ≡ at) × IsObjection rs word.now f.fault) }
{
    let few = match every_in(alloc, index, word) {
        Ok(few) => few,
        Err(fault) => return Err(WordFault { word: at, fault }),
    };
    match ids.extend_from_slice(&few) {
        Ok(()) => Ok(()),
        Err(_) => Err(WordFault {
            word: at,
            fault: KeyFault::Memory,
        }),
    }
}

/// All entries that some words stand for, word by word.
pub fn every_of_words_in(
    alloc: Global,
    index: &KeyIndex,
    words: &[&[u8]],
) -> Result<Vec<OpId>, WordFault>
    requires { (rs : List OneRow) × IsIndex index.now rs }
    ensures ok { (rs : List OneRow) → IsIndex index.now rs → IfOk result (λ ids. StandForEvery rs (map (λ w. w.now) words.now) ids.items) }
    ensures fault { (rs : List OneRow) → IsIndex index.now rs → IfErr result (λ f. FailsAt rs 0 (map (λ w. w.now) words.now) f.word f.fault) }
{
    let mut ids = Vec::new(alloc);
    for (at, word) in words.iter().enumerate() {
        push_every(alloc, &mut ids, index, at, *word)?;
    }
    Ok(ids)
}

// Appends the entry that the word at this index of the words stands for.
fn push_entry(
    alloc: Global,
    ids: &mut Vec<OpId>,
    index: &KeyIndex,
    at: usize,
    word: &[u8],
) -> Result<(), WordFault>
    requires { (rs : List OneRow) × IsIndex index.now rs }
    ensures ok { (rs : List OneRow) → IsIndex index.now rs → OnOk result ((e : Id) × StandsFor rs word.now e × (ids.new.items ≡ ids.old.items ++ e ∷ [])) }
    ensures fault { (rs : List OneRow) → IsIndex index.now rs → IfErr result (λ f. (f.word ≡ at) × IsObjection rs word.now f.fault) }
{
    let id = match entry_in(alloc, index, word) {
        Ok(id) => id,
        Err(fault) => return Err(WordFault { word: at, fault }),
    };
    match ids.push(id) {
        Ok(()) => Ok(()),
        Err(_) => Err(WordFault {
            word: at,
            fault: KeyFault::Memory,
        }),
    }
}

/// The entry that each of some words stands for: for a key the least.
pub fn each_of_words_in(
    alloc: Global,
    index: &KeyIndex,
    words: &[&[u8]],
) -> Result<Vec<OpId>, WordFault>
    requires { (rs : List OneRow) × IsIndex index.now rs }
    ensures ok { (rs : List OneRow) → IsIndex index.now rs → IfOk result (λ ids. StandForEach rs (map (λ w. w.now) words.now) ids.items) }
    ensures fault { (rs : List OneRow) → IsIndex index.now rs → IfErr result (λ f. FailsAt rs 0 (map (λ w. w.now) words.now) f.word f.fault) }
{
    let mut ids = Vec::new(alloc);
    for (at, word) in words.iter().enumerate() {
        push_entry(alloc, &mut ids, index, at, *word)?;
    }
    Ok(ids)
}
