//! A store that brings all that an office made to its register.

ghost use Rattle.std.specs.Prelude.{◌≡◌, IfOk, IfErr};
ghost use Rattle.reg_guard.specs.Admitting.{admit_fault};
ghost use Rattle.reg_take.specs.Catching.{IsCaughtUp, IsNotCaughtUp};

use reg_engine::{CliFault, Keep, Refusal, Store};
use reg_journal::{AdmitFault, OfficeFile};
use reg_state::Register;
use std::alloc::Global;

/// A store, and the office file whose operations are joined to its register, which is never behind.
#[derive(Drop)]
pub struct Catching<'a, T> {
    pub store: T,
    pub file: &'a OfficeFile,
}

impl<T: Store> Store for Catching<'_, T> {
    ghost use Rattle.std.specs.Prelude.{◌≡◌};
    ghost use Rattle.std.proofs.Common.{◌∙◌};
    ghost use Rattle.reg_take.specs.Catching.{caught_up};

    ghost around = { λ old. λ new. T.around old.store new.store };

    ghost next = { λ s. T.next s.store };

    ghost same = { λ old. λ new. T.same old.store new.store × (new.file ≡ old.file) };

    ghost admission = { λ s. caught_up s.file.now };

    ghost still = { λ a b c e f. (T.still a.store b.store c.store e.0 f.0, f.1 ∙ e.1) };

    fn next(&self) -> usize {
        self.store.next()
    }

    fn load(&mut self, alloc: Global) -> Result<Register, CliFault> {
        match self.store.load(alloc) {
            Ok(register) => Ok(register),
            Err(fault) => Err(fault),
        }
    }

    fn admit(&self, alloc: Global, register: Register) -> Result<Register, CliFault> {
        match caught_up(alloc, self.file, &register) {
            Ok(register) => Ok(register),
            Err(fault) => Err(fault),
        }
    }
}

impl<T: Keep> Keep for Catching<'_, T> {
    fn keep(&mut self, alloc: Global, register: &Register) -> Result<(), CliFault> {
        match self.store.keep(alloc, register) {
            Ok(()) => Ok(()),
            Err(fault) => Err(fault),
        }
    }
}

/// The register with all that the office made.
pub fn caught_up(
    alloc: Global,
    file: &OfficeFile,
    register: &Register,
) -> Result<Register, CliFault>
    ensures caught { IfOk result (IsCaughtUp file.now register.now) }
    ensures fault { IfErr result (IsNotCaughtUp file.now register.now) }
{
    match file.catch_up(alloc, register) {
        Ok(register) => Ok(register),
        Err(fault) => Err(fault_of(fault)),
    }
}

fn fault_of(fault: AdmitFault) -> CliFault
    ensures { result ≡ admit_fault fault }
{
    match fault {
        AdmitFault::Behind(id) => CliFault::Refused(Refusal::Behind(id)),
        AdmitFault::Forged(id) => CliFault::Refused(Refusal::Forged(id)),
        AdmitFault::Memory => CliFault::Memory,
    }
}
