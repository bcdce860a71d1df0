//! The index in which words are looked up, and the entries that the words of a line name.

ghost use Rattle.std.specs.Prelude.{◌≡◌, List, map, IfOk, IfErr};
ghost use Rattle.reg_op.specs.Rows.{Row as OneRow};
ghost use Rattle.reg_op.specs.Set.{Ascends};
ghost use Rattle.reg_report.specs.Seen.{row_seen};
ghost use Rattle.reg_keys.specs.declared.fault.KeyFault.{KeyFault};
ghost use Rattle.reg_report.specs.Rows.{row_cmp};
ghost use Rattle.reg_keys.specs.Index.{IsIndex};
ghost use Rattle.reg_keys.specs.Every.{StandsForEvery, StandForEach};
ghost use Rattle.reg_supersede.specs.declared.fault.LineWord.{LineWord};
ghost use Rattle.reg_supersede.specs.Lists.{rows_if, word_fault, FailsLine};

use crate::fault::{LineFault, LineWord};
use reg_keys::{KeyFault, KeyIndex, each_of_words_in, every_in, index_of};
use reg_op::OpId;
use reg_report::{Row, rows};
use reg_state::Register;
use std::alloc::{AllocError, Global};

// The rows in which words are looked up: those of the register by id, or none if only ids are accepted.
fn rows_for(alloc: Global, register: &Register, keys: bool) -> Result<Vec<Row>, AllocError>
    ensures rows { IfOk result (λ made. map row_seen made.items ≡ rows_if keys register.now) }
    ensures order { IfOk result (λ made. Ascends row_cmp (map row_seen made.items)) }
{
    if keys {
        return rows(alloc, register);
    }
    Ok(Vec::new(alloc))
}

/// The index of these rows.
pub fn index_for(alloc: Global, register: &Register, keys: bool) -> Result<KeyIndex, AllocError>
    ensures { IfOk result (λ index. IsIndex index (rows_if keys register.now)) }
{
    let rows = rows_for(alloc, register, keys)?;
    let index = index_of(alloc, rows)?;
    Ok(index)
}

/// The old entries of a line, and those that supersede them.
#[derive(Drop)]
pub struct LineEntries {
    pub olds: Vec<OpId>,
    pub newer: Vec<OpId>,
}

/// The entries that the words of a line name: the first word all that it stands for, each of the others one.
pub fn entries_for(
    alloc: Global,
    index: &KeyIndex,
    keys: bool,
    first: &[u8],
    others: &[&[u8]],
) -> Result<LineEntries, LineFault>
    requires { (rs : List OneRow) × IsIndex index.now rs }
    ensures olds { (rs : List OneRow) → IsIndex index.now rs → IfOk result (λ r. StandsForEvery rs first.now r.olds.items) }
    ensures newer { (rs : List OneRow) → IsIndex index.now rs → IfOk result (λ r. StandForEach rs (map (λ w. w.now) others.now) r.newer.items) }
    ensures fault { (rs : List OneRow) → IsIndex index.now rs → IfErr result (λ f. (at : LineWord) × (k : KeyFault) × FailsLine rs first.now (map (λ w. w.now) others.now) at k × (word_fault keys at k ≡ f)) }
{
    let olds = match every_in(alloc, index, first) {
        Ok(olds) => olds,
        Err(fault) => return Err(fault_of_word(keys, LineWord::Old, fault)),
    };
    match each_of_words_in(alloc, index, others) {
        Ok(newer) => Ok(LineEntries { olds, newer }),
        Err(why) => Err(fault_of_word(keys, LineWord::By(why.word), why.fault)),
    }
}

/// The fault of a line with a word that names no entry. If keys are not accepted, the word is not an id.
pub fn fault_of_word(keys: bool, word: LineWord, fault: KeyFault) -> LineFault
    ensures { result ≡ word_fault keys word fault }
{
    match fault {
        KeyFault::NoEntry => {
            if keys {
                LineFault::NoEntry(word)
            } else {
                LineFault::BadId(word)
            }
        }
        KeyFault::Several(id) => LineFault::Several(word, id),
        KeyFault::Memory => LineFault::Memory,
    }
}
