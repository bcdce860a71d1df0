//! The names of offices, which a file of CSV gives.

ghost use Rattle.std.specs.Prelude.{◌≡◌};
ghost use Rattle.cli_open.specs.NameFaults.{is_memory, names_status};

use crate::words::open;
use byte_io::{InFault, read_up_to};
use clap::ArgMatches;
use csv_table::offices::{Name, NamesFault, read};
use reg_engine::CliFault;
use std::alloc::Global;
use std::{fmt, fs};

/// The most bytes of a file of names.
const MOST: usize = 1_048_576;

/// Why a file of names was not read.
#[derive(Clone, Copy)]
pub enum NamesProblem {
    /// It is not there, it cannot be read, or it is not a regular file.
    NotOpened,
    TooLarge,
    ReadFailed(usize),
    Unread(NamesFault),
    Memory,
}

impl NamesProblem {
    /// Whether memory ran out.
    pub fn is_memory(self) -> bool
        ensures { result ≡ is_memory self }
    {
        match self {
            NamesProblem::Memory => true,
            NamesProblem::Unread(NamesFault::Memory) => true,
            _ => false,
        }
    }

    /// The exit status.
    pub fn status(self) -> u8
        ensures { result ≡ names_status self }
    {
        if self.is_memory() {
            let memory = CliFault::Memory;
            return memory.status();
        }
        NO_FILE
    }
}

/// The exit status for a file that cannot be read.
const NO_FILE: u8 = 3;

impl fmt::Display for NamesProblem {
    fn fmt<W: fmt::Write>(&self, f: &mut fmt::Formatter<W>) -> fmt::Result {
        match self {
            NamesProblem::NotOpened => f.write_str("names: NotOpened"),
            NamesProblem::TooLarge => f.write_str("names: TooLarge"),
            NamesProblem::ReadFailed(place) => write!(f, "names: ReadFailed at {place}"),
            NamesProblem::Memory | NamesProblem::Unread(NamesFault::Memory) => {
                let memory = CliFault::Memory;
                write!(f, "{memory}")
            }
            NamesProblem::Unread(fault) => write!(f, "names: {fault}"),
        }
    }
}

/// The names that `--names` gives; none if it is not given.
pub fn names(rt: &HostRuntime, matches: &ArgMatches<'_>) -> Result<Vec<Name>, NamesProblem> {
    match matches.get_str("names") {
        Some(path) => names_at(rt, rt.alloc(), path),
        None => Ok(Vec::new(rt.alloc())),
    }
}

/// The same for a command that found before that they can be read. If they cannot be read again, there are none.
pub fn names_again(rt: &HostRuntime, matches: &ArgMatches<'_>) -> Result<Vec<Name>, CliFault> {
    match names(rt, matches) {
        Ok(names) => Ok(names),
        Err(problem) => {
            if problem.is_memory() {
                return Err(CliFault::Memory);
            }
            Ok(Vec::new(rt.alloc()))
        }
    }
}

// A pipe could be read only once.
fn names_at(rt: &HostRuntime, alloc: Global, path: &str) -> Result<Vec<Name>, NamesProblem> {
    match fs::metadata(rt, path) {
        Ok(file) if file.is_file() => {}
        _ => return Err(NamesProblem::NotOpened),
    }
    let Ok(mut source) = open(rt, 1, path) else {
        return Err(NamesProblem::NotOpened);
    };
    let text = match read_up_to(alloc, &mut source, MOST + 1) {
        Ok(text) if text.len() <= MOST => text,
        Ok(_) => return Err(NamesProblem::TooLarge),
        Err(InFault::ReadFailed(place)) => return Err(NamesProblem::ReadFailed(place)),
        Err(InFault::Memory) => return Err(NamesProblem::Memory),
    };
    match read(alloc, &text) {
        Ok(names) => Ok(names),
        Err(fault) => Err(NamesProblem::Unread(fault)),
    }
}
