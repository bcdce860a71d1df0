//! Commands that print a text of the entry that a word of the command line names, by id or by key.
//!
//! Each command is written once, for an id. `ByWord` looks up the entry of the word, and runs the command.

ghost use Rattle.std.specs.Prelude.{◌≡◌};
ghost use Rattle.reg_commands.specs.Keyed.{key_fault};

use crate::reports::Show;
use crate::wkt::{Form, Wkt};
use reg_engine::{CliFault, Print, Refusal};
use reg_keys::{KeyFault, named_one};
use reg_op::OpId;
use reg_state::Register;
use std::alloc::Global;

/// A command that prints a text of an entry.
pub trait PrintOf {
    ghost use Rattle.std.specs.Prelude.{ℕ, List, IfOk, IfErr};
    ghost use Rattle.reg_op.specs.Ids.{Id};
    ghost use Rattle.reg_op.specs.Contents.{Content};
    ghost use Rattle.reg_engine.specs.declared.fault.CliFault.{CliFault};

    /// The text for the entry of the register.
    ghost prints: { Self → Id → Content → List ℕ → Type 0 };

    /// The reason why there is none.
    ghost refuses: { Self → Id → Content → CliFault → Type 0 };

    fn text_of(&self, alloc: Global, entry: OpId, register: &Register) -> Result<Vec<u8>, CliFault>
        ensures prints { IfOk result (λ text. prints self.now entry register.now text.items) }
        ensures refuses { IfErr result (refuses self.now entry register.now) };
}

/// A command on the entry that a word names.
#[derive(Drop)]
pub struct ByWord<'a, C> {
    pub word: &'a [u8],
    pub command: &'a C,
}

impl<C: PrintOf> Print for ByWord<'_, C> {
    ghost use Rattle.reg_commands.specs.Keyed.{PrintsFor, RefusesFor};

    ghost prints = { λ c. λ x. λ text. PrintsFor (C.prints c.command.now) c.word.now x text };

    ghost refuses = { λ c. λ x. λ f. RefusesFor (C.refuses c.command.now) c.word.now x f };

    fn text(&self, alloc: Global, register: &Register) -> Result<Vec<u8>, CliFault> {
        let entry = match named_one(alloc, register, self.word) {
            Ok(entry) => entry,
            Err(fault) => return Err(fault_of(fault)),
        };
        match self.command.text_of(alloc, entry, register) {
            Ok(text) => Ok(text),
            Err(fault) => Err(fault),
        }
    }
}

/// The fault of a word that names no entry.
pub fn fault_of(fault: KeyFault) -> CliFault
    ensures { result ≡ key_fault fault }
{
    match fault {
        KeyFault::NoEntry => CliFault::Refused(Refusal::NoEntry),
        KeyFault::Several(id) => CliFault::Refused(Refusal::Several(id)),
        KeyFault::Memory => CliFault::Memory,
    }
}

/// `Show` of an entry.
#[derive(Drop)]
pub struct ShowOf;

impl PrintOf for ShowOf {
    ghost use Rattle.reg_commands.specs.Report.{IsRowOf, Lacks};

    ghost prints = { λ c. λ e. λ x. λ text. IsRowOf e x text };

    ghost refuses = { λ c. λ e. λ x. λ f. Lacks e x f };

    fn text_of(
        &self,
        alloc: Global,
        entry: OpId,
        register: &Register,
    ) -> Result<Vec<u8>, CliFault> {
        match (Show { entry }).text(alloc, register) {
            Ok(text) => Ok(text),
            Err(fault) => Err(fault),
        }
    }
}

/// `Wkt` of an entry.
#[derive(Drop)]
pub struct WktOf {
    pub form: Form,
}

impl PrintOf for WktOf {
    ghost use Rattle.reg_commands.specs.Report.{Lacks};
    ghost use Rattle.reg_commands.specs.Export.{IsLineOf};

    ghost prints = { λ c. λ e. λ x. λ text. IsLineOf c.form x e text };

    ghost refuses = { λ c. λ e. λ x. λ f. Lacks e x f };

    fn text_of(
        &self,
        alloc: Global,
        entry: OpId,
        register: &Register,
    ) -> Result<Vec<u8>, CliFault> {
        let form = self.form;
        match (Wkt { entry, form }).text(alloc, register) {
            Ok(text) => Ok(text),
            Err(fault) => Err(fault),
        }
    }
}
