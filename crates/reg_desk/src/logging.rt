//! The command `log`.

use reg_commands::fault_of;
use reg_engine::{CliFault, Print, Refusal};
use reg_keys::told;
use reg_office::OfficeFault;
use reg_op::OpId;
use reg_query::{Asked, first_unlogged, log_text};
use reg_state::Register;
use std::alloc::Global;

/// Prints a line for each operation that the register keeps, entry by entry.
#[derive(Drop)]
pub struct LogAll;

impl Print for LogAll {
    ghost use Rattle.reg_engine.specs.Store.{Never};
    ghost use Rattle.reg_desk.specs.Logged.{LogsAll};

    ghost prints = { λ c. λ x. λ text. LogsAll x text };

    ghost refuses = { λ c. λ x. λ f. Never x f };

    fn text(&self, alloc: Global, register: &Register) -> Result<Vec<u8>, CliFault> {
        match log_text(alloc, register, &Asked::All) {
            Ok(text) => Ok(text),
            Err(_) => Err(CliFault::Memory),
        }
    }
}

/// Prints the lines of the operations on these entries.
#[derive(Drop)]
pub struct LogOf<'a> {
    pub entries: &'a [OpId],
}

impl Print for LogOf<'_> {
    ghost use Rattle.reg_desk.specs.Logged.{LogsOf, CannotLog};

    ghost prints = { λ c. λ x. λ text. LogsOf c.entries.now x text };

    ghost refuses = { λ c. λ x. λ f. CannotLog c.entries.now x f };

    fn text(&self, alloc: Global, register: &Register) -> Result<Vec<u8>, CliFault> {
        let Ok(first) = first_unlogged(alloc, register.ops().as_slice(), self.entries) else {
            return Err(CliFault::Memory);
        };
        if let Some(entry) = first {
            return Err(CliFault::Refused(Refusal::Office(OfficeFault::UnknownEntry(entry))));
        }
        match log_text(alloc, register, &Asked::These(self.entries)) {
            Ok(text) => Ok(text),
            Err(_) => Err(CliFault::Memory),
        }
    }
}

/// Prints the lines of the operations on the entries that words select: an id selects its entry, and a key all its
/// entries.
#[derive(Drop)]
pub struct LogByWords<'a> {
    pub words: &'a [&'a [u8]],
}

impl Print for LogByWords<'_> {
    ghost use Rattle.std.specs.Prelude.{map};
    ghost use Rattle.reg_desk.specs.Logged.{LogsFor, CannotLogFor};

    ghost prints = { λ c. λ x. λ text. LogsFor (map (λ w. w.now) c.words.now) x text };

    ghost refuses = { λ c. λ x. λ f. CannotLogFor (map (λ w. w.now) c.words.now) x f };

    fn text(&self, alloc: Global, register: &Register) -> Result<Vec<u8>, CliFault> {
        let entries = match told(alloc, register, self.words) {
            Ok(entries) => entries,
            Err(fault) => return Err(fault_of(fault)),
        };
        match (LogOf { entries: &entries }).text(alloc, register) {
            Ok(text) => Ok(text),
            Err(fault) => Err(fault),
        }
    }
}
