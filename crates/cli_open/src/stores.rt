//! Opens the register that a command names, in its file or (with `--shelf`) on its shelf, and prints something of it, or writes a
//! file of it.

ghost use Rattle.std.specs.Prelude.{◌≡◌};
ghost use Rattle.cli_open.specs.Numbers.{after_opened};

use crate::inputs::{Replaced, open_input};
use crate::reading::{ReadFile, ReadShelf};
use crate::shelves::open_to_read;
use crate::table::{Rows, answered};
use crate::words::{files_before, word};
use byte_disk::FileDisk;
use byte_io::{Reading, Writing};
use byte_out::{InputOf, Lockable, Place};
use clap::ArgMatches;
use reg_engine::{CliFault, Either, Give, Print, run_give, run_print};
use std::alloc::Global;
use std::fs::OpenFile;
use std::io::{self, Read, Seek, Write};
use std::rt::Files;

/// A register that was opened.
#[derive(Drop)]
pub enum OpenedRegister<F> {
    File(InputOf<Reading<F>>),
    Shelf(FileDisk<F>),
}

/// The store of a register that is only read.
pub type ReadRegister<F> = Either<ReadFile<InputOf<Reading<F>>>, ReadShelf<FileDisk<F>>>;

impl<F> OpenedRegister<F> {
    /// The store of a command that only reads the register.
    pub fn reading(self) -> ReadRegister<F> {
        match self {
            OpenedRegister::File(source) => Either::One(ReadFile::new(source)),
            OpenedRegister::Shelf(disk) => Either::Other(ReadShelf::new(disk)),
        }
    }
}

/// The number of the first file that is read after the register: a shelf has no number.
pub fn next_file<F>(register: &OpenedRegister<F>) -> usize
    ensures { result ≡ after_opened register.now }
{
    match register {
        OpenedRegister::File(_) => 2,
        OpenedRegister::Shelf(_) => 1,
    }
}

/// Opens the register that this word names, to read it. OUT may replace it.
pub fn open_register<R: Files>(
    rt: &R,
    alloc: Global,
    matches: &ArgMatches<'_>,
    name: &str,
    out: &Option<Replaced<'_>>,
) -> Result<OpenedRegister<R::File>, CliFault>
where
    R::File: Lockable,
{
    let path = word(matches, name);
    if matches.get_flag("shelf") {
        let disk = open_to_read(rt, path)?;
        return Ok(OpenedRegister::Shelf(disk));
    }
    let number = files_before(matches).saturating_add(1);
    let source = open_input(rt, alloc, number, path, out)?;
    Ok(OpenedRegister::File(source))
}

/// Opens the register and prints the command's text of it, or with `--table` the table of its rows.
pub fn print_of<C: Print>(
    rt: &HostRuntime,
    matches: &ArgMatches<'_>,
    command: &C,
) -> Result<(), CliFault> {
    let mut sink = Rows::sink(rt, matches, io::writer(rt));
    let answer = print_to(rt, matches, command, &mut sink);
    match answered(rt.alloc(), sink, answer) {
        Ok(answer) => answer,
        Err(fault) => Err(fault),
    }
}

fn print_to<C: Print, W: Write>(
    rt: &HostRuntime,
    matches: &ArgMatches<'_>,
    command: &C,
    sink: &mut Writing<W>,
) -> Result<(), CliFault> {
    let register = open_register(rt, rt.alloc(), matches, "REG", &None)?;
    run_print(rt.alloc(), &mut register.reading(), command, sink)
}

/// Writes the command's file of the register to the place.
pub fn give_of<F: Read + Write + Seek + OpenFile + Drop, C: Give, P: Place + Drop>(
    rt: &HostRuntime,
    register: OpenedRegister<F>,
    command: &mut C,
    place: P,
) -> Result<(), CliFault> {
    let mut place = place;
    let answer = run_give(rt.alloc(), &mut register.reading(), command, &mut place);
    drop(place);
    answer
}
