//! Sentences for shelves that cannot be read or changed.
use crate::paths::{Paths, SpecialCommand};
use crate::shown::Shown;
use reg_engine::ShelfProblem;
use std::fmt;

/// Writes the sentence for a problem of the shelf.
pub fn write<W: fmt::Write>(
    f: &mut fmt::Formatter<W>,
    problem: ShelfProblem,
    paths: &Paths<'_>,
) -> fmt::Result {
    let shelf = Shown(paths.shelf);
    match problem {
        ShelfProblem::NotOpened => write_not_opened(f, paths),
        ShelfProblem::Busy => {
            writeln!(
                f,
                "another command uses {shelf}\nhint: run this command again when it has ended"
            )
        }
        ShelfProblem::NotLocked => {
            writeln!(
                f,
                "{shelf} cannot be locked: its file system has no locks, so another command could change it at the same time\nhint: move it to a local file system, or take a file: crsreg unshelf writes one"
            )
        }
        ShelfProblem::NotShelf => {
            writeln!(f, "{shelf} is not a shelf, or it is damaged")?;
            f.write_str(match paths.command {
                SpecialCommand::Unshelf =>
                    "hint: crsreg shelf makes one; if this is a register file, copy it instead\n",
                _ => "hint: crsreg shelf makes one; without --shelf a command takes a file\n",
            })
        }
        ShelfProblem::TooLarge => {
            writeln!(
                f,
                "{shelf} has no room for the new register, and keeps the old one"
            )?;
            writeln!(
                f,
                "hint: write it to a file with crsreg unshelf, make a larger shelf, and merge the file into it"
            )
        }
        ShelfProblem::DiskFailed => write_failed(f, paths),
    }
}

// Writes why a shelf was not opened or made.
fn write_not_opened<W: fmt::Write>(f: &mut fmt::Formatter<W>, paths: &Paths<'_>) -> fmt::Result {
    let shelf = Shown(paths.shelf);
    match paths.command {
        SpecialCommand::Shelf => writeln!(
            f,
            "{shelf} cannot be made: its folder is not there, or you may not write it"
        ),
        SpecialCommand::Status => writeln!(
            f,
            "{shelf} cannot be opened: it is not there, you may not read it, or another command changes it"
        ),
        _ => writeln!(
            f,
            "{shelf} cannot be opened: it is not there, or you may not read or write it"
        ),
    }
}

// Writes what a shelf holds if it could not be read or written.
fn write_failed<W: fmt::Write>(f: &mut fmt::Formatter<W>, paths: &Paths<'_>) -> fmt::Result {
    let shelf = Shown(paths.shelf);
    match paths.command {
        SpecialCommand::Shelf => writeln!(
            f,
            "{shelf} could not be written, and may be no shelf now: the disk is full, or it fails\nhint: make it again with crsreg shelf"
        ),
        SpecialCommand::Status => writeln!(f, "{shelf} could not be read"),
        _ => writeln!(
            f,
            "{shelf} could not be read or written; it holds the register from before the command or the one after it",
        ),
    }
}
