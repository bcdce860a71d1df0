//! Opens shelves, and locks them.

ghost use Rattle.std.specs.Prelude.{◌≡◌};
ghost use Rattle.cli_open.specs.Locks.{lock_problem};

use crate::words::STANDARD_OUTPUT_PATH;
use byte_disk::FileDisk;
use byte_out::{FileId, Lock, Lockable};
use reg_engine::{CliFault, ShelfProblem};
use std::fs::{self, OpenOptions};
use std::rt::Files;

/// Opens a shelf for reading and writing. No other command may have it open, standard output may not go to it, and the file system
/// has to have locks.
pub fn open_shelf<R: Files>(rt: &R, path: &str) -> Result<FileDisk<R::File>, CliFault>
where
    R::File: Lockable,
{
    let Ok(file) = OpenOptions::new().read(true).write(true).open(rt, path) else {
        return Err(CliFault::Shelf(ShelfProblem::NotOpened));
    };
    if is_standard_output(rt, &file) {
        return Err(CliFault::Shelf(ShelfProblem::NotOpened));
    }
    match lock_problem(file.lock_alone(), true) {
        Some(problem) => Err(CliFault::Shelf(problem)),
        None => Ok(FileDisk::new(file)),
    }
}

// Why a shelf is not used, if asking for its lock ended so, and whether the command changes it.
fn lock_problem(lock: Lock, changes: bool) -> Option<ShelfProblem>
    ensures { result ≡ lock_problem lock changes }
{
    match lock {
        Lock::Taken => None,
        Lock::Held => Some(ShelfProblem::Busy),
        Lock::Missing => {
            if changes {
                return Some(ShelfProblem::NotLocked);
            }
            None
        }
    }
}

/// Opens the file of a shelf that is to be made, and creates it if it is not there. No other command may have it open, and the file
/// system has to have locks. The lock ends with the file.
pub fn lock_new_shelf<R: Files>(rt: &R, path: &str) -> Result<R::File, CliFault>
where
    R::File: Lockable,
{
    let is_there = fs::metadata(rt, path).is_ok();
    let mut options = OpenOptions::new();
    let Ok(file) = options.read(true).write(true).create(true).open(rt, path) else {
        return Err(CliFault::Shelf(ShelfProblem::NotOpened));
    };
    match lock_problem(file.lock_alone(), true) {
        None => Ok(file),
        Some(problem) => {
            if problem == ShelfProblem::NotLocked && !is_there {
                let _ = fs::remove_file(rt, path);
            }
            Err(CliFault::Shelf(problem))
        }
    }
}

fn is_standard_output<R: Files>(rt: &R, file: &R::File) -> bool {
    match FileId::at(rt, STANDARD_OUTPUT_PATH) {
        Some(id) => id.is_of(file),
        None => false,
    }
}

/// Opens a shelf for reading. No command may have it open for writing. On a file system without locks it is read without one.
pub fn open_to_read<R: Files>(rt: &R, path: &str) -> Result<FileDisk<R::File>, CliFault>
where
    R::File: Lockable,
{
    match OpenOptions::new().read(true).open(rt, path) {
        Ok(file) => match lock_problem(file.lock_shared(), false) {
            Some(problem) => Err(CliFault::Shelf(problem)),
            None => Ok(FileDisk::new(file)),
        },
        Err(_) => Err(CliFault::Shelf(ShelfProblem::NotOpened)),
    }
}
