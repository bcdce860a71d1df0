//! Stores: where a command loads its register and keeps the new one, in a file and its place, or on a shelf.

use crate::fault::CliFault;
use crate::inputs::read_file;
use crate::outputs::publish_register;
use crate::shelf_steps::{keep_on, restore_from};
use byte_disk::Disk;
use byte_io::Source;
use byte_out::{Input, Place};
use reg_state::Register;
use std::alloc::Global;

/// A store from which a command loads its register.
pub trait Store {
    ghost use Rattle.std.specs.Prelude.{◌≡◌, ℕ, IfOk, IfErr};
    ghost use Rattle.reg_engine.specs.Store.{Around, Admission, Admits, Bars};

    /// The events at the store between two moments.
    ghost around: { Self → Self → Around };

    /// The number of the first file that a command reads beside it.
    ghost next: { Self → ℕ };

    /// It has the same devices.
    ghost same: { Self → Self → Type 0 };

    /// The register on which a command works, given the one that was loaded.
    ghost admission: { Self → Admission };

    fn next(&self) -> usize
        ensures { result ≡ next self.now };

    fn load(&mut self, alloc: Global) -> Result<Register, CliFault>
        ensures same { same self.old self.new }
        ensures came { IfOk result (λ r. (around self.old self.new).came r) }
        ensures none { IfErr result (λ f. (around self.old self.new).none f) };

    /// The register on which a command works, after this one was loaded and the command has read what it needs.
    fn admit(&self, alloc: Global, register: Register) -> Result<Register, CliFault>
        ensures admits { (first : Self) → same first self.now → IfOk result (λ r. Admits (admission first) register r) }
        ensures bars { (first : Self) → same first self.now → IfErr result (λ f. Bars (admission first) register f) };

    /// This stays so after a further step.
    ghost still: { (a b c : Self) → same a b → same b c → same a c };
}

/// A store that also keeps the register that a command makes.
pub trait Keep: Store {
    ghost use Rattle.std.specs.Prelude.{OnOk, IfErr};
    ghost use Rattle.reg_op.specs.Contents.{Content};

    /// Replaces the register that was loaded by this one, if it has not changed since.
    fn keep(&mut self, alloc: Global, register: &Register) -> Result<(), CliFault>
        ensures same { Self.same self.old self.new }
        ensures left { (first : Self) (was : Content) → Self.same first self.old → (Self.around first self.old).came was
            → OnOk result ((Self.around first self.new).left was register.now) }
        ensures unleft { (first : Self) (was : Content) → Self.same first self.old → (Self.around first self.old).came was
            → IfErr result (λ f. (Self.around first self.new).unleft was register.now f) };
}

/// A store whose register a command writes to a file, which may be the store's own file.
pub trait Base: Store {
    ghost use Rattle.std.specs.Prelude.{◌≡◌, ℕ, List, Option, IfOk, IfErr, option_map};

    /// The bytes of its file, if that is the file that is replaced.
    ghost kept: { Self → Option (List ℕ) };

    fn kept(&self) -> Result<Option<&[u8]>, CliFault>
        ensures kept { IfOk result (λ b. option_map (λ s. s.now) b ≡ kept self.now) }
        ensures fault { IfErr result (λ f. f ≡ CliFault.Memory) };
}

/// A register's file, which is file 1, and the place of the next one.
#[derive(Drop)]
pub struct InFile<'a, S, P> {
    pub source: &'a mut S,
    pub place: &'a mut P,
}

impl<S: Input, P: Place> Store for InFile<'_, S, P> {
    ghost use Rattle.std.specs.Prelude.{◌≡◌};
    ghost use Rattle.std.proofs.Common.{◌∙◌};
    ghost use Rattle.byte_out.specs.Input.{kept_of};
    ghost use Rattle.reg_engine.specs.Store.{in_file, AsLoaded};

    ghost around = { λ old. λ new. in_file (S.state old.source.now) (P.state old.place.now)
        (S.state new.source.now) (kept_of (S.keeps new.source.now) (S.state new.source.now)) (P.state new.place.now) };

    ghost next = { λ s. 2 };

    ghost same = { λ old. λ new. (new.source.ghost_name ≡ old.source.ghost_name) × (new.place.ghost_name ≡ old.place.ghost_name) };

    ghost admission = { λ s. AsLoaded };

    ghost still = { λ a b c e f. (f.0 ∙ e.0, f.1 ∙ e.1) };

    fn next(&self) -> usize {
        2
    }

    fn load(&mut self, alloc: Global) -> Result<Register, CliFault> {
        match read_file(alloc, 1, self.source) {
            Ok(register) => Ok(register),
            Err(fault) => Err(fault),
        }
    }

    fn admit(&self, _alloc: Global, register: Register) -> Result<Register, CliFault> {
        Ok(register)
    }
}

impl<S: Input, P: Place> Keep for InFile<'_, S, P> {
    fn keep(&mut self, alloc: Global, register: &Register) -> Result<(), CliFault> {
        let Ok(read) = self.source.kept() else {
            return Err(CliFault::Memory);
        };
        match publish_register(alloc, register, read, self.place) {
            Ok(()) => Ok(()),
            Err(fault) => Err(fault),
        }
    }
}

/// A register's file, which is file 1 and is only read.
#[derive(Drop)]
pub struct OfFile<'a, S> {
    pub source: &'a mut S,
}

impl<S: Source> Store for OfFile<'_, S> {
    ghost use Rattle.std.specs.Prelude.{◌≡◌};
    ghost use Rattle.std.proofs.Common.{◌∙◌};
    ghost use Rattle.reg_engine.specs.Store.{of_file, AsLoaded};

    ghost around = { λ old. λ new. of_file (S.state old.source.now) (S.state new.source.now) };

    ghost next = { λ s. 2 };

    ghost same = { λ old. λ new. new.source.ghost_name ≡ old.source.ghost_name };

    ghost admission = { λ s. AsLoaded };

    ghost still = { λ a b c e f. f ∙ e };

    fn next(&self) -> usize {
        2
    }

    fn load(&mut self, alloc: Global) -> Result<Register, CliFault> {
        match read_file(alloc, 1, self.source) {
            Ok(register) => Ok(register),
            Err(fault) => Err(fault),
        }
    }

    fn admit(&self, _alloc: Global, register: Register) -> Result<Register, CliFault> {
        Ok(register)
    }
}

impl<S: Input> Base for OfFile<'_, S> {
    ghost use Rattle.byte_out.specs.Input.{kept_of};

    ghost kept = { λ s. kept_of (S.keeps s.source.now) (S.state s.source.now) };

    fn kept(&self) -> Result<Option<&[u8]>, CliFault> {
        match self.source.kept() {
            Ok(kept) => Ok(kept),
            Err(_) => Err(CliFault::Memory),
        }
    }
}

/// A shelf.
#[derive(Drop)]
pub struct OnShelf<'a, D> {
    pub disk: &'a mut D,
}

impl<D: Disk> Store for OnShelf<'_, D> {
    ghost use Rattle.std.specs.Prelude.{◌≡◌};
    ghost use Rattle.std.proofs.Common.{◌∙◌};
    ghost use Rattle.reg_engine.specs.Shelf.{disks};
    ghost use Rattle.reg_engine.specs.Store.{on_shelf, AsLoaded};

    ghost around = { λ old. λ new. on_shelf (disks D.tells D.seen D.images D.moment D.images_since D.failures) old.disk.now new.disk.now };

    ghost next = { λ s. 1 };

    ghost same = { λ old. λ new. (new.disk.ghost_name ≡ old.disk.ghost_name) × (D.tells new.disk.now ≡ D.tells old.disk.now) };

    ghost admission = { λ s. AsLoaded };

    ghost still = { λ a b c e f. (f.0 ∙ e.0, f.1 ∙ e.1) };

    fn next(&self) -> usize {
        1
    }

    fn load(&mut self, alloc: Global) -> Result<Register, CliFault> {
        match restore_from(alloc, self.disk) {
            Ok(register) => Ok(register),
            Err(fault) => Err(fault),
        }
    }

    fn admit(&self, _alloc: Global, register: Register) -> Result<Register, CliFault> {
        Ok(register)
    }
}

impl<D: Disk> Base for OnShelf<'_, D> {
    ghost use Rattle.std.specs.Prelude.{None};

    ghost kept = { λ s. None };

    fn kept(&self) -> Result<Option<&[u8]>, CliFault> {
        Ok(None)
    }
}

impl<D: Disk> Keep for OnShelf<'_, D> {
    fn keep(&mut self, alloc: Global, register: &Register) -> Result<(), CliFault> {
        match keep_on(alloc, self.disk, register) {
            Ok(()) => Ok(()),
            Err(fault) => Err(fault),
        }
    }
}
