//! Registers that a command only reads, in a file or on a shelf.

ghost use Rattle.std.specs.Prelude.{◌≡◌, Some};

use byte_disk::Disk;
use byte_io::Source;
use byte_out::Input;
use reg_engine::{Base, CliFault, OnShelf, ShelfProblem, Store, read_file};
use reg_file::Register;
use std::alloc::Global;

/// A register's file, which is file 1.
#[derive(Drop)]
pub struct ReadFile<S> {
    source: S,
}

impl<S> ReadFile<S> {
    /// The file that the source reads.
    pub fn new(source: S) -> ReadFile<S>
        ensures { result.source ≡ source }
    {
        ReadFile { source }
    }
}

impl<S: Source> Store for ReadFile<S> {
    ghost use Rattle.reg_engine.specs.Store.{of_file, AsLoaded};

    ghost around = { λ old. λ new. of_file (S.state old.source) (S.state new.source) };

    ghost next = { λ s. 2 };

    ghost same = { λ old. λ new. Unit {0} };

    ghost admission = { λ s. AsLoaded };

    ghost still = { λ a b c e f. tt };

    fn next(&self) -> usize {
        2
    }

    fn load(&mut self, alloc: Global) -> Result<Register, CliFault> {
        match read_file(alloc, 1, &mut self.source) {
            Ok(register) => Ok(register),
            Err(fault) => Err(fault),
        }
    }

    fn admit(&self, _alloc: Global, register: Register) -> Result<Register, CliFault> {
        Ok(register)
    }
}

impl<S: Input> Base for ReadFile<S> {
    ghost use Rattle.byte_out.specs.Input.{kept_of};

    ghost kept = { λ s. kept_of (S.keeps s.source) (S.state s.source) };

    fn kept(&self) -> Result<Option<&[u8]>, CliFault> {
        match self.source.kept() {
            Ok(kept) => Ok(kept),
            Err(_) => Err(CliFault::Memory),
        }
    }
}

/// A shelf whose file is closed once its register is loaded. Its lock ends then, so that a reader of the output that waits, such as
/// a pager, keeps no command from the shelf.
#[derive(Drop)]
pub struct ReadShelf<D> {
    disk: Option<D>,
}

impl<D> ReadShelf<D> {
    /// The shelf on this disk.
    pub fn new(disk: D) -> ReadShelf<D>
        ensures { result.disk ≡ Some disk }
    {
        ReadShelf { disk: Some(disk) }
    }
}

impl<D: Disk + Drop> Store for ReadShelf<D> {
    ghost use Rattle.reg_engine.specs.Shelf.{disks};
    ghost use Rattle.reg_engine.specs.Store.{AsLoaded};
    ghost use Rattle.cli_open.specs.Reading.{read_once};

    ghost around = { λ old. λ new. read_once (disks D.tells D.seen D.images D.moment D.images_since D.failures) old.disk };

    ghost next = { λ s. 1 };

    ghost same = { λ old. λ new. Unit {0} };

    ghost admission = { λ s. AsLoaded };

    ghost still = { λ a b c e f. tt };

    fn next(&self) -> usize {
        1
    }

    fn load(&mut self, alloc: Global) -> Result<Register, CliFault> {
        let Some(mut disk) = self.disk.take() else {
            return Err(CliFault::Shelf(ShelfProblem::NotOpened));
        };
        let mut store = OnShelf { disk: &mut disk };
        match store.load(alloc) {
            Ok(register) => Ok(register),
            Err(fault) => Err(fault),
        }
    }

    fn admit(&self, _alloc: Global, register: Register) -> Result<Register, CliFault> {
        Ok(register)
    }
}

impl<D: Disk + Drop> Base for ReadShelf<D> {
    ghost use Rattle.std.specs.Prelude.{None};

    ghost kept = { λ s. None };

    fn kept(&self) -> Result<Option<&[u8]>, CliFault> {
        Ok(None)
    }
}
