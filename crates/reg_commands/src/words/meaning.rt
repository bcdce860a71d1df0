//! The entries that words mean: those for which they stand in the register on which a command works, or, where that has none of a
//! word, in the register as it was read.

ghost use Rattle.std.specs.Prelude.{◌≡◌, ◌≢◌, ◌⊎◌, ◌++◌, ◌∷◌, [], List, map, IfOk, OnOk, IfErr, IfSome};
ghost use Rattle.reg_op.specs.Ids.{Id};
ghost use Rattle.reg_op.specs.Rows.{Row as OneRow, rows};
ghost use Rattle.reg_keys.specs.Index.{IsIndex};
ghost use Rattle.reg_keys.specs.Named.{StandsFor};
ghost use Rattle.reg_keys.specs.Every.{StandsForEvery};
ghost use Rattle.reg_commands.specs.Meaning.{MeansEvery, MeansOne, IsMeaningless, MeanEvery, MeanEach, FailsIn, MeanBoth, AreMeaningless};
ghost use Rattle.reg_commands.specs.Keyed.{IsUnnamed};

use crate::words::keyed::fault_of;
use reg_engine::CliFault;
use reg_keys::{
    KeyFault, KeyIndex, each_of_words_in, entry_in, every_in, every_of_words_in, index_of_register,
};
use reg_op::OpId;
use reg_state::Register;
use std::alloc::Global;

/// Entries that a command changes, and others that supersede them.
#[derive(Drop)]
pub(crate) struct Entries {
    pub changed: Vec<OpId>,
    pub newer: Vec<OpId>,
}

// All entries for which a word stands in the register as it was read. If it stands for none, there is no entry.
fn every_read(alloc: Global, was: &KeyIndex, word: &[u8]) -> Result<Vec<OpId>, KeyFault>
    requires { (xs : List OneRow) × IsIndex was.now xs }
    ensures ok { (xs : List OneRow) → IsIndex was.now xs → IfOk result (λ ids. StandsForEvery xs word.now ids.items) }
    ensures fault { (xs : List OneRow) → IsIndex was.now xs
        → IfErr result (λ f. (f ≡ KeyFault.Memory) ⊎ ((f ≡ KeyFault.NoEntry) × ((e : Id) → ¬ (StandsFor xs word.now e)))) }
{
    match every_in(alloc, was, word) {
        Ok(ids) => Ok(ids),
        Err(KeyFault::NoEntry) => Err(KeyFault::NoEntry),
        Err(KeyFault::Several(_)) => Err(KeyFault::NoEntry),
        Err(KeyFault::Memory) => Err(KeyFault::Memory),
    }
}

// The entry for which a word stands there.
fn entry_read(alloc: Global, was: &KeyIndex, word: &[u8]) -> Result<OpId, KeyFault>
    requires { (xs : List OneRow) × IsIndex was.now xs }
    ensures ok { (xs : List OneRow) → IsIndex was.now xs → IfOk result (λ id. StandsFor xs word.now id) }
    ensures fault { (xs : List OneRow) → IsIndex was.now xs
        → IfErr result (λ f. (f ≡ KeyFault.Memory) ⊎ ((f ≡ KeyFault.NoEntry) × ((e : Id) → ¬ (StandsFor xs word.now e)))) }
{
    match entry_in(alloc, was, word) {
        Ok(id) => Ok(id),
        Err(KeyFault::NoEntry) => Err(KeyFault::NoEntry),
        Err(KeyFault::Several(_)) => Err(KeyFault::NoEntry),
        Err(KeyFault::Memory) => Err(KeyFault::Memory),
    }
}

// All entries for which a word stands there, if this fault says that the join has none of it; otherwise the fault.
fn every_after(
    alloc: Global,
    was: &KeyIndex,
    word: &[u8],
    fault: KeyFault,
) -> Result<Vec<OpId>, KeyFault>
    requires { (xs : List OneRow) × IsIndex was.now xs }
    ensures ok { (xs : List OneRow) → IsIndex was.now xs → IfOk result (λ ids. (fault ≡ KeyFault.NoEntry) × StandsForEvery xs word.now ids.items) }
    ensures fault { (xs : List OneRow) → IsIndex was.now xs → IfErr result (λ f. ((fault ≢ KeyFault.NoEntry) × (f ≡ fault))
        ⊎ ((fault ≡ KeyFault.NoEntry) × ((f ≡ KeyFault.Memory) ⊎ ((f ≡ KeyFault.NoEntry) × ((e : Id) → ¬ (StandsFor xs word.now e)))))) }
{
    match fault {
        KeyFault::NoEntry => match every_read(alloc, was, word) {
            Ok(ids) => Ok(ids),
            Err(why) => Err(why),
        },
        KeyFault::Several(id) => Err(KeyFault::Several(id)),
        KeyFault::Memory => Err(KeyFault::Memory),
    }
}

// All entries that a word means.
fn every_meant(
    alloc: Global,
    was: &KeyIndex,
    now: &KeyIndex,
    word: &[u8],
) -> Result<Vec<OpId>, KeyFault>
    requires was { (xs : List OneRow) × IsIndex was.now xs }
    requires now { (zs : List OneRow) × IsIndex now.now zs }
    ensures ok { (xs zs : List OneRow) → IsIndex was.now xs → IsIndex now.now zs → IfOk result (λ ids. MeansEvery xs zs word.now ids.items) }
    ensures fault { (xs zs : List OneRow) → IsIndex was.now xs → IsIndex now.now zs → IfErr result (IsMeaningless xs zs word.now) }
{
    let fault = match every_in(alloc, now, word) {
        Ok(ids) => return Ok(ids),
        Err(fault) => fault,
    };
    match every_after(alloc, was, word, fault) {
        Ok(ids) => Ok(ids),
        Err(why) => Err(why),
    }
}

// The entry for which a word stands there, if this fault says that the join has none of it; otherwise the fault.
fn entry_after(
    alloc: Global,
    was: &KeyIndex,
    word: &[u8],
    fault: KeyFault,
) -> Result<OpId, KeyFault>
    requires { (xs : List OneRow) × IsIndex was.now xs }
    ensures ok { (xs : List OneRow) → IsIndex was.now xs → IfOk result (λ id. (fault ≡ KeyFault.NoEntry) × StandsFor xs word.now id) }
    ensures fault { (xs : List OneRow) → IsIndex was.now xs → IfErr result (λ f. ((fault ≢ KeyFault.NoEntry) × (f ≡ fault))
        ⊎ ((fault ≡ KeyFault.NoEntry) × ((f ≡ KeyFault.Memory) ⊎ ((f ≡ KeyFault.NoEntry) × ((e : Id) → ¬ (StandsFor xs word.now e)))))) }
{
    match fault {
        KeyFault::NoEntry => match entry_read(alloc, was, word) {
            Ok(id) => Ok(id),
            Err(why) => Err(why),
        },
        KeyFault::Several(id) => Err(KeyFault::Several(id)),
        KeyFault::Memory => Err(KeyFault::Memory),
    }
}

// The entry that a word means.
fn entry_meant(alloc: Global, was: &KeyIndex, now: &KeyIndex, word: &[u8]) -> Result<OpId, KeyFault>
    requires was { (xs : List OneRow) × IsIndex was.now xs }
    requires now { (zs : List OneRow) × IsIndex now.now zs }
    ensures ok { (xs zs : List OneRow) → IsIndex was.now xs → IsIndex now.now zs → IfOk result (λ id. MeansOne xs zs word.now id) }
    ensures fault { (xs zs : List OneRow) → IsIndex was.now xs → IsIndex now.now zs → IfErr result (IsMeaningless xs zs word.now) }
{
    let fault = match entry_in(alloc, now, word) {
        Ok(id) => return Ok(id),
        Err(fault) => fault,
    };
    match entry_after(alloc, was, word, fault) {
        Ok(id) => Ok(id),
        Err(why) => Err(why),
    }
}

// Appends all entries that a word means.
fn push_every(
    alloc: Global,
    ids: &mut Vec<OpId>,
    was: &KeyIndex,
    now: &KeyIndex,
    word: &[u8],
) -> Result<(), KeyFault>
    requires was { (xs : List OneRow) × IsIndex was.now xs }
    requires now { (zs : List OneRow) × IsIndex now.now zs }
    ensures ok { (xs zs : List OneRow) → IsIndex was.now xs → IsIndex now.now zs
        → OnOk result ((few : List Id) × MeansEvery xs zs word.now few × (ids.new.items ≡ ids.old.items ++ few)) }
    ensures fault { (xs zs : List OneRow) → IsIndex was.now xs → IsIndex now.now zs → IfErr result (IsMeaningless xs zs word.now) }
{
    let few = match every_meant(alloc, was, now, word) {
        Ok(few) => few,
        Err(fault) => return Err(fault),
    };
    match ids.extend_from_slice(&few) {
        Ok(()) => Ok(()),
        Err(_) => Err(KeyFault::Memory),
    }
}

// All entries that some words mean, word by word.
fn every_of(
    alloc: Global,
    was: &KeyIndex,
    now: &KeyIndex,
    words: &[&[u8]],
) -> Result<Vec<OpId>, KeyFault>
    requires was { (xs : List OneRow) × IsIndex was.now xs }
    requires now { (zs : List OneRow) × IsIndex now.now zs }
    ensures ok { (xs zs : List OneRow) → IsIndex was.now xs → IsIndex now.now zs → IfOk result (λ ids. MeanEvery xs zs (map (λ w. w.now) words.now) ids.items) }
    ensures fault { (xs zs : List OneRow) → IsIndex was.now xs → IsIndex now.now zs → IfErr result (FailsIn xs zs (map (λ w. w.now) words.now)) }
{
    let mut ids = Vec::new(alloc);
    for word in words {
        push_every(alloc, &mut ids, was, now, word)?;
    }
    Ok(ids)
}

// Appends the entry that a word means.
fn push_entry(
    alloc: Global,
    ids: &mut Vec<OpId>,
    was: &KeyIndex,
    now: &KeyIndex,
    word: &[u8],
) -> Result<(), KeyFault>
    requires was { (xs : List OneRow) × IsIndex was.now xs }
    requires now { (zs : List OneRow) × IsIndex now.now zs }
    ensures ok { (xs zs : List OneRow) → IsIndex was.now xs → IsIndex now.now zs
        → OnOk result ((e : Id) × MeansOne xs zs word.now e × (ids.new.items ≡ ids.old.items ++ e ∷ [])) }
    ensures fault { (xs zs : List OneRow) → IsIndex was.now xs → IsIndex now.now zs → IfErr result (IsMeaningless xs zs word.now) }
{
    let id = match entry_meant(alloc, was, now, word) {
        Ok(id) => id,
        Err(fault) => return Err(fault),
    };
    match ids.push(id) {
        Ok(()) => Ok(()),
        Err(_) => Err(KeyFault::Memory),
    }
}

// The entry that each of some words means.
fn each_of(
    alloc: Global,
    was: &KeyIndex,
    now: &KeyIndex,
    words: &[&[u8]],
) -> Result<Vec<OpId>, KeyFault>
    requires was { (xs : List OneRow) × IsIndex was.now xs }
    requires now { (zs : List OneRow) × IsIndex now.now zs }
    ensures ok { (xs zs : List OneRow) → IsIndex was.now xs → IsIndex now.now zs → IfOk result (λ ids. MeanEach xs zs (map (λ w. w.now) words.now) ids.items) }
    ensures fault { (xs zs : List OneRow) → IsIndex was.now xs → IsIndex now.now zs → IfErr result (FailsIn xs zs (map (λ w. w.now) words.now)) }
{
    let mut ids = Vec::new(alloc);
    for word in words {
        push_entry(alloc, &mut ids, was, now, word)?;
    }
    Ok(ids)
}

// The entries that the words mean, if each of them stands for entries in the register on which the command works.
fn entries_there(alloc: Global, now: &KeyIndex, words: &[&[u8]], newer: &[&[u8]]) -> Option<Entries>
    requires { (zs : List OneRow) × IsIndex now.now zs }
    ensures { (xs zs : List OneRow) → IsIndex now.now zs → IfSome result (λ r. MeanBoth xs zs (map (λ w. w.now) words.now) (map (λ w. w.now) newer.now) r.changed.items r.newer.items) }
{
    let Ok(changed) = every_of_words_in(alloc, now, words) else {
        return None;
    };
    match each_of_words_in(alloc, now, newer) {
        Ok(newer) => Some(Entries { changed, newer }),
        Err(_) => None,
    }
}

/// The entries that the words of a command mean, which works on the second register, after the first one was read.
pub(crate) fn entries_meant(
    alloc: Global,
    loaded: &Register,
    register: &Register,
    words: &[&[u8]],
    newer: &[&[u8]],
) -> Result<Entries, CliFault>
    ensures ok { IfOk result (λ r. MeanBoth (rows loaded.now.ops) (rows register.now.ops) (map (λ w. w.now) words.now) (map (λ w. w.now) newer.now) r.changed.items r.newer.items) }
    ensures fault { IfErr result (λ f. (f ≡ CliFault.Memory) ⊎ IsUnnamed (AreMeaningless (rows loaded.now.ops) (rows register.now.ops) (map (λ w. w.now) words.now) (map (λ w. w.now) newer.now)) f) }
{
    let now = match index_of_register(alloc, register) {
        Ok(index) => index,
        Err(_) => return Err(CliFault::Memory),
    };
    // Most words stand for entries there. Then the other register needs no index.
    if let Some(entries) = entries_there(alloc, &now, words, newer) {
        return Ok(entries);
    }
    let was = match index_of_register(alloc, loaded) {
        Ok(index) => index,
        Err(_) => return Err(CliFault::Memory),
    };
    let changed = match every_of(alloc, &was, &now, words) {
        Ok(changed) => changed,
        Err(fault) => return Err(fault_of(fault)),
    };
    match each_of(alloc, &was, &now, newer) {
        Ok(newer) => Ok(Entries { changed, newer }),
        Err(fault) => Err(fault_of(fault)),
    }
}
