//! The stores of registers that a command changes, in a file or on a shelf, as an office with an office file or without one.

ghost use Rattle.std.specs.Prelude.{◌≡◌};
ghost use Rattle.cli_open.specs.Numbers.{after_target};
ghost use Rattle.cli_open.specs.Targets.{HasOffice, IsStoreOf};

use crate::inputs::{Replaced, open_input};
use crate::offices::OpenOffice;
use crate::shelves::open_shelf;
use crate::waiting::reserve;
use crate::words::{changed_place, files_before, word};
use byte_disk::FileDisk;
use byte_io::Reading;
use byte_out::InputOf;
use byte_place::OutPlace;
use clap::ArgMatches;
use reg_engine::{CliFault, Either, InFile, OnShelf};
use reg_guard::{GuardedFile, GuardedShelf};
use reg_journal::OfficeFile;
use std::fs::File;

/// A register that a command changes: its file and the place of the next one, or its shelf.
#[derive(Drop)]
pub enum RegisterTarget<F, P> {
    File(InputOf<Reading<F>>, P),
    Shelf(FileDisk<F>),
}

/// The store of such a register.
pub type PlainRegister<'a, F, P> = Either<
    InFile<'a, InputOf<Reading<F>>, P>,
    OnShelf<'a, FileDisk<F>>,
>;

/// The same for an office with an office file.
pub type GuardedRegister<'a, F, P, Q> = Either<
    GuardedFile<'a, InputOf<Reading<F>>, P, Q>,
    GuardedShelf<'a, FileDisk<F>, Q>,
>;

/// The same for an office of which only the command line tells whether it has one.
pub type ChangedRegister<'a, F, P, Q> = Either<
    PlainRegister<'a, F, P>,
    GuardedRegister<'a, F, P, Q>,
>;

impl<F, P> RegisterTarget<F, P> {
    /// The number of the first file that is read after the register: a shelf has no number.
    pub fn next(&self) -> usize
        ensures { result ≡ after_target self.now }
    {
        match self {
            RegisterTarget::File(_, _) => 2,
            RegisterTarget::Shelf(_) => 1,
        }
    }

    /// The store of a command of an office.
    pub fn store<'a, Q>(
        &'a mut self,
        office: &'a mut Option<OpenOffice<Q>>,
    ) -> ChangedRegister<'a, F, P, Q>
        ensures { IsStoreOf office.old result }
    {
        match office {
            None => Either::One(self.plain()),
            Some(office) => Either::Other(self.of_office(office)),
        }
    }

    // The same for an office with an office file.
    fn of_office<'a, Q>(&'a mut self, office: &'a mut OpenOffice<Q>) -> GuardedRegister<'a, F, P, Q>
        ensures { HasOffice office.old.file result }
    {
        let OpenOffice { file, place } = office;
        self.guarded(file, place)
    }

    /// The store of a command without an office file.
    pub fn plain<'a>(&'a mut self) -> PlainRegister<'a, F, P> {
        match self {
            RegisterTarget::File(source, place) => Either::One(InFile { source, place }),
            RegisterTarget::Shelf(disk) => Either::Other(OnShelf { disk }),
        }
    }

    /// The store of a command with this office file, which has this place.
    pub fn guarded<'a, Q>(
        &'a mut self,
        file: &'a OfficeFile,
        office: &'a mut Q,
    ) -> GuardedRegister<'a, F, P, Q>
        ensures { HasOffice file.now result }
    {
        match self {
            RegisterTarget::File(source, place) => Either::One(GuardedFile {
                source,
                place,
                office,
                file,
                stood: 0,
            }),
            RegisterTarget::Shelf(disk) => Either::Other(GuardedShelf {
                disk,
                office,
                file,
                stood: 0,
            }),
        }
    }
}

/// Opens the register that `REG` names, to change it: its shelf; or its file, and the place of OUT. If OUT is the register, its new
/// file is made first.
pub fn open_target<'a>(
    rt: &'a HostRuntime,
    matches: &ArgMatches<'_>,
    out: &'a str,
) -> Result<RegisterTarget<File, OutPlace<'a>>, CliFault> {
    let register = word(matches, "REG");
    if matches.get_flag("shelf") {
        let disk = open_shelf(rt, register)?;
        return Ok(RegisterTarget::Shelf(disk));
    }
    let number = files_before(matches).saturating_add(1);
    let mut place = changed_place(rt, rt.alloc(), out, matches.get_flag("quiet"))?;
    reserve(rt, &mut place, out, &[register])?;
    let replaced = Some(Replaced::at(rt, rt.alloc(), out)?);
    let source = open_input(rt, rt.alloc(), number, register, &replaced)?;
    Ok(RegisterTarget::File(source, place))
}
