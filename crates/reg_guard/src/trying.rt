//! Stores of an office that tries a command: they are only read.

use crate::admitting::admitted;
use byte_disk::Disk;
use byte_io::Source;
use reg_engine::{CliFault, Store, read_file, restore_from};
use reg_journal::OfficeFile;
use reg_state::Register;
use std::alloc::Global;

/// A register's file, which is file 2, and what the office file has.
#[derive(Drop)]
pub struct TriedFile<'a, S> {
    pub source: &'a mut S,
    pub file: &'a OfficeFile,
}

impl<S: Source> Store for TriedFile<'_, S> {
    ghost use Rattle.std.specs.Prelude.{◌≡◌};
    ghost use Rattle.std.proofs.Common.{◌∙◌};
    ghost use Rattle.reg_guard.specs.Admitting.{with_office};
    ghost use Rattle.reg_guard.specs.Stores.{tried_file};

    ghost around = { λ old. λ new. tried_file (S.state old.source.now) (S.state new.source.now) };

    ghost next = { λ s. 3 };

    ghost same = { λ old. λ new. (new.source.ghost_name ≡ old.source.ghost_name) × (new.file ≡ old.file) };

    ghost admission = { λ s. with_office s.file.now };

    ghost still = { λ a b c e f. (f.0 ∙ e.0, f.1 ∙ e.1) };

    fn next(&self) -> usize {
        3
    }

    fn load(&mut self, alloc: Global) -> Result<Register, CliFault> {
        match read_file(alloc, 2, self.source) {
            Ok(register) => Ok(register),
            Err(fault) => Err(fault),
        }
    }

    fn admit(&self, alloc: Global, register: Register) -> Result<Register, CliFault> {
        match admitted(alloc, self.file, &register) {
            Ok(register) => Ok(register),
            Err(fault) => Err(fault),
        }
    }
}

/// A shelf, and what the office file has.
#[derive(Drop)]
pub struct TriedShelf<'a, D> {
    pub disk: &'a mut D,
    pub file: &'a OfficeFile,
}

impl<D: Disk> Store for TriedShelf<'_, D> {
    ghost use Rattle.std.specs.Prelude.{◌≡◌};
    ghost use Rattle.std.proofs.Common.{◌∙◌};
    ghost use Rattle.reg_engine.specs.Shelf.{disks};
    ghost use Rattle.reg_engine.specs.Store.{on_shelf};
    ghost use Rattle.reg_guard.specs.Admitting.{with_office};

    ghost around = { λ old. λ new. on_shelf (disks D.tells D.seen D.images D.moment D.images_since D.failures) old.disk.now new.disk.now };

    ghost next = { λ s. 2 };

    ghost same = { λ old. λ new. (new.disk.ghost_name ≡ old.disk.ghost_name) × (D.tells new.disk.now ≡ D.tells old.disk.now) × (new.file ≡ old.file) };

    ghost admission = { λ s. with_office s.file.now };

    ghost still = { λ a b c e f. (f.0 ∙ e.0, f.1 ∙ e.1, f.2 ∙ e.2) };

    fn next(&self) -> usize {
        2
    }

    fn load(&mut self, alloc: Global) -> Result<Register, CliFault> {
        match restore_from(alloc, self.disk) {
            Ok(register) => Ok(register),
            Err(fault) => Err(fault),
        }
    }

    fn admit(&self, alloc: Global, register: Register) -> Result<Register, CliFault> {
        match admitted(alloc, self.file, &register) {
            Ok(register) => Ok(register),
            Err(fault) => Err(fault),
        }
    }
}
