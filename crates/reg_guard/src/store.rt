//! Stores with an office file: a command works on the register joined with all that the office made, and the office file gets what
//! it makes before the register is replaced.

use crate::admitting::admitted;
use crate::keeping::{keep_after, publish_after};
use byte_disk::Disk;
use byte_out::{Input, Place};
use reg_engine::{CliFault, Keep, Store, read_file, restore_from};
use reg_journal::OfficeFile;
use reg_office::last_count;
use reg_state::Register;
use std::alloc::Global;

/// A register's file, which is file 2, the place of the next one, the place of an office file, whose new file is made already, and
/// what that office file has. The store notes the greatest number of the office that the loaded register has seen.
#[derive(Drop)]
pub struct GuardedFile<'a, S, P, Q> {
    pub source: &'a mut S,
    pub place: &'a mut P,
    pub office: &'a mut Q,
    pub file: &'a OfficeFile,
    pub stood: u32,
}

impl<S: Input, P: Place, Q: Place> Store for GuardedFile<'_, S, P, Q> {
    ghost use Rattle.std.specs.Prelude.{◌≡◌};
    ghost use Rattle.std.proofs.Common.{◌∙◌};
    ghost use Rattle.byte_out.specs.Input.{kept_of};
    ghost use Rattle.reg_guard.specs.Admitting.{with_office};
    ghost use Rattle.reg_guard.specs.Stores.{guarded_file};

    ghost around = { λ old. λ new. guarded_file old.file.now new.stood (S.state old.source.now) (P.state old.place.now) (Q.state old.office.now)
        (S.state new.source.now) (kept_of (S.keeps new.source.now) (S.state new.source.now)) (P.state new.place.now) (Q.state new.office.now) };

    ghost next = { λ s. 3 };

    ghost same = { λ old. λ new. (new.source.ghost_name ≡ old.source.ghost_name) × (new.place.ghost_name ≡ old.place.ghost_name)
        × (new.office.ghost_name ≡ old.office.ghost_name) × (new.file ≡ old.file) };

    ghost admission = { λ s. with_office s.file.now };

    ghost still = { λ a b c e f. (f.0 ∙ e.0, f.1 ∙ e.1, f.2 ∙ e.2, f.3 ∙ e.3) };

    fn next(&self) -> usize {
        3
    }

    fn load(&mut self, alloc: Global) -> Result<Register, CliFault> {
        let register = match read_file(alloc, 2, self.source) {
            Ok(register) => register,
            Err(fault) => return Err(fault),
        };
        self.stood = last_count(register.seen(), self.file.replica());
        Ok(register)
    }

    fn admit(&self, alloc: Global, register: Register) -> Result<Register, CliFault> {
        match admitted(alloc, self.file, &register) {
            Ok(register) => Ok(register),
            Err(fault) => Err(fault),
        }
    }
}

impl<S: Input, P: Place, Q: Place> Keep for GuardedFile<'_, S, P, Q> {
    fn keep(&mut self, alloc: Global, register: &Register) -> Result<(), CliFault> {
        let Ok(read) = self.source.kept() else {
            return Err(CliFault::Memory);
        };
        let Ok(next) = self.file.left_by(alloc, self.stood, register) else {
            return Err(CliFault::Memory);
        };
        match publish_after(
            alloc,
            self.file,
            next,
            register,
            read,
            self.place,
            self.office,
        ) {
            Ok(()) => Ok(()),
            Err(fault) => Err(fault),
        }
    }
}

/// A shelf, the place of an office file, whose new file is made already, and what that office file has.
#[derive(Drop)]
pub struct GuardedShelf<'a, D, Q> {
    pub disk: &'a mut D,
    pub office: &'a mut Q,
    pub file: &'a OfficeFile,
    pub stood: u32,
}

impl<D: Disk, Q: Place> Store for GuardedShelf<'_, D, Q> {
    ghost use Rattle.std.specs.Prelude.{◌≡◌};
    ghost use Rattle.std.proofs.Common.{◌∙◌};
    ghost use Rattle.reg_engine.specs.Shelf.{disks};
    ghost use Rattle.reg_guard.specs.Admitting.{with_office};
    ghost use Rattle.reg_guard.specs.Stores.{guarded_shelf};

    ghost around = { λ old. λ new. guarded_shelf old.file.now new.stood (disks D.tells D.seen D.images D.moment D.images_since D.failures)
        old.disk.now (Q.state old.office.now) new.disk.now (Q.state new.office.now) };

    ghost next = { λ s. 2 };

    ghost same = { λ old. λ new. (new.disk.ghost_name ≡ old.disk.ghost_name) × (D.tells new.disk.now ≡ D.tells old.disk.now)
        × (new.office.ghost_name ≡ old.office.ghost_name) × (new.file ≡ old.file) };

    ghost admission = { λ s. with_office s.file.now };

    ghost still = { λ a b c e f. (f.0 ∙ e.0, f.1 ∙ e.1, f.2 ∙ e.2, f.3 ∙ e.3) };

    fn next(&self) -> usize {
        2
    }

    fn load(&mut self, alloc: Global) -> Result<Register, CliFault> {
        let register = match restore_from(alloc, self.disk) {
            Ok(register) => register,
            Err(fault) => return Err(fault),
        };
        self.stood = last_count(register.seen(), self.file.replica());
        Ok(register)
    }

    fn admit(&self, alloc: Global, register: Register) -> Result<Register, CliFault> {
        match admitted(alloc, self.file, &register) {
            Ok(register) => Ok(register),
            Err(fault) => Err(fault),
        }
    }
}

impl<D: Disk, Q: Place> Keep for GuardedShelf<'_, D, Q> {
    fn keep(&mut self, alloc: Global, register: &Register) -> Result<(), CliFault> {
        let Ok(next) = self.file.left_by(alloc, self.stood, register) else {
            return Err(CliFault::Memory);
        };
        match keep_after(alloc, self.file, next, register, self.disk, self.office) {
            Ok(()) => Ok(()),
            Err(fault) => Err(fault),
        }
    }
}
