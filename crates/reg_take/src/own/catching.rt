//! Brings what an office made to a register.

use crate::own::store::caught_up;
use reg_engine::{Change, CliFault, Made, Print};
use reg_journal::OfficeFile;
use reg_query::compare;
use reg_state::Register;
use std::alloc::Global;

/// Makes nothing: the store has joined all that the office made. The lines are the rows that differ from the loaded register.
#[derive(Drop)]
pub struct CatchUp;

impl Change for CatchUp {
    type Read = Register;

    ghost use Rattle.std.specs.Prelude.{◌≡◌};
    ghost use Rattle.reg_engine.specs.declared.fault.CliFault.TheVariants as cli;
    ghost use Rattle.reg_query.specs.DiffLines.{IsDiff};

    ghost reads = { λ old. λ new. λ next. λ x. λ r. r ≡ x };

    ghost unmet = { λ old. λ new. λ next. λ x. λ f. f ≡ cli.Memory };

    ghost makes = { λ old. λ new. λ next. λ x. λ z. λ y. λ lines. (y ≡ z) × IsDiff x z lines };

    ghost refuses = { λ old. λ new. λ next. λ x. λ z. λ f. f ≡ cli.Memory };

    ghost same = { λ old. λ new. Unit {0} };

    ghost itself = { λ a. tt };

    ghost unread = { λ old. λ new. Unit {0} };

    ghost rests = { λ a. tt };

    ghost still = { λ a b c e f. tt };

    ghost stops = { λ a b n x z f h. h };

    fn read(
        &mut self,
        alloc: Global,
        _next: usize,
        register: &Register,
    ) -> Result<Register, CliFault> {
        match register.try_clone(alloc) {
            Ok(loaded) => Ok(loaded),
            Err(_) => Err(CliFault::Memory),
        }
    }

    fn make(
        &mut self,
        alloc: Global,
        _next: usize,
        read: Register,
        register: Register,
    ) -> Result<Made, CliFault> {
        match compare(alloc, &read, &register) {
            Ok(rows) => Ok(Made {
                register,
                lines: rows.text,
            }),
            Err(_) => Err(CliFault::Memory),
        }
    }
}

/// Prints the rows that catching up would change, and keeps nothing.
#[derive(Drop)]
pub struct WouldCatchUp<'a> {
    pub file: &'a OfficeFile,
}

impl Print for WouldCatchUp<'_> {
    ghost use Rattle.std.specs.Prelude.{◌≡◌, ◌⊎◌};
    ghost use Rattle.reg_op.specs.Contents.{Content};
    ghost use Rattle.reg_engine.specs.declared.fault.CliFault.TheVariants as cli;
    ghost use Rattle.reg_query.specs.DiffLines.{IsDiff};
    ghost use Rattle.reg_take.specs.Catching.{IsCaughtUp, IsNotCaughtUp};

    ghost prints = { λ c. λ x. λ text. (y : Content) × IsCaughtUp c.file.now x y × IsDiff x y text };

    ghost refuses = { λ c. λ x. λ f. IsNotCaughtUp c.file.now x f ⊎ (f ≡ cli.Memory) };

    fn text(&self, alloc: Global, register: &Register) -> Result<Vec<u8>, CliFault> {
        let all = match caught_up(alloc, self.file, register) {
            Ok(all) => all,
            Err(fault) => return Err(fault),
        };
        match compare(alloc, register, &all) {
            Ok(rows) => Ok(rows.text),
            Err(_) => Err(CliFault::Memory),
        }
    }
}
