//! The command `compare`.

ghost use Rattle.std.specs.Prelude.{◌≡◌};
ghost use Rattle.reg_texts.specs.CompareCommands.{uncompared_fault};

use crate::compare::{Uncompared, compared_key, compared_text};
use reg_commands::{ByWord, PrintOf};
use reg_engine::{CliFault, Print, Refusal};
use reg_office::OfficeFault;
use reg_op::OpId;
use reg_state::Register;
use std::alloc::Global;

/// Prints what differs between the texts of two entries, as a unified diff.
#[derive(Drop)]
pub struct Compare {
    pub one: OpId,
    pub other: OpId,
}

impl Print for Compare {
    ghost use Rattle.reg_texts.specs.Compare.{IsCompared};
    ghost use Rattle.reg_texts.specs.CompareCommands.{CannotCompare};

    ghost prints = { λ c. λ x. λ text. IsCompared c.one c.other x text };

    ghost refuses = { λ c. λ x. λ f. CannotCompare c.one c.other x f };

    fn text(&self, alloc: Global, register: &Register) -> Result<Vec<u8>, CliFault> {
        match compared_text(alloc, register, self.one, self.other) {
            Ok(text) => Ok(text),
            Err(why) => Err(fault_of(why)),
        }
    }
}

/// The fault of the command, if two entries cannot be compared.
pub fn fault_of(why: Uncompared) -> CliFault
    ensures { result ≡ uncompared_fault why }
{
    match why {
        Uncompared::UnknownEntry(id) => {
            CliFault::Refused(Refusal::Office(OfficeFault::UnknownEntry(id)))
        }
        Uncompared::Memory => CliFault::Memory,
    }
}

/// `Compare` of this entry and another.
#[derive(Drop)]
pub struct CompareTo {
    pub one: OpId,
}

impl PrintOf for CompareTo {
    ghost use Rattle.reg_texts.specs.Compare.{IsCompared};
    ghost use Rattle.reg_texts.specs.CompareCommands.{CannotCompare};

    ghost prints = { λ c. λ e. λ x. λ text. IsCompared c.one e x text };

    ghost refuses = { λ c. λ e. λ x. λ f. CannotCompare c.one e x f };

    fn text_of(
        &self,
        alloc: Global,
        entry: OpId,
        register: &Register,
    ) -> Result<Vec<u8>, CliFault> {
        let (one, other) = (self.one, entry);
        match (Compare { one, other }).text(alloc, register) {
            Ok(text) => Ok(text),
            Err(fault) => Err(fault),
        }
    }
}

/// `Compare` of an entry and the one that the word names.
#[derive(Drop)]
pub struct CompareWith<'a> {
    pub word: &'a [u8],
}

impl PrintOf for CompareWith<'_> {
    ghost use Rattle.reg_texts.specs.CompareCommands.{IsComparedWith, CannotCompareWith};

    ghost prints = { λ c. λ e. λ x. λ text. IsComparedWith e c.word.now x text };

    ghost refuses = { λ c. λ e. λ x. λ f. CannotCompareWith e c.word.now x f };

    fn text_of(
        &self,
        alloc: Global,
        entry: OpId,
        register: &Register,
    ) -> Result<Vec<u8>, CliFault> {
        let command = CompareTo { one: entry };
        let by_word = ByWord {
            word: self.word,
            command: &command,
        };
        match by_word.text(alloc, register) {
            Ok(text) => Ok(text),
            Err(fault) => Err(fault),
        }
    }
}

/// Of the entries of a key that are not retired, compares the text of the one with the least id with each of the others.
#[derive(Drop)]
pub struct CompareKey<'a> {
    pub key: &'a [u8],
}

impl Print for CompareKey<'_> {
    ghost use Rattle.reg_texts.specs.CompareCommands.{IsKeyComparedText, HasNoEntry};

    ghost prints = { λ c. λ x. λ text. IsKeyComparedText c.key.now x text };

    ghost refuses = { λ c. λ x. λ f. HasNoEntry c.key.now x f };

    fn text(&self, alloc: Global, register: &Register) -> Result<Vec<u8>, CliFault> {
        match compared_key(alloc, register, self.key) {
            Ok(Some(text)) => Ok(text),
            Ok(None) => Err(CliFault::Refused(Refusal::NoEntry)),
            Err(_) => Err(CliFault::Memory),
        }
    }
}
