//! Sentences for files that cannot be written.
use crate::paths::{Paths, SpecialCommand};
use crate::shown::{NewBeside, Shown};
use reg_engine::OutFault;
use std::fmt;

/// Writes the sentence for a fault of the output, which the command has written before the fault or not.
pub fn write<W: fmt::Write>(
    f: &mut fmt::Formatter<W>,
    fault: OutFault,
    is_written: bool,
    paths: &Paths<'_>,
) -> fmt::Result {
    let out = Shown(paths.out);
    match fault {
        OutFault::NotOpened => write_not_opened(f, paths),
        OutFault::NewExists => write_new_exists(f, paths),
        OutFault::TooLarge => f.write_str(
            "the new file would have more than 67,108,864 bytes\nhint: equal texts of several offices all count: let one office import an authority and the others take its register, or keep a register for each authority\n",
        ),
        OutFault::WriteFailed(written) => write_failed(f, written, is_written, paths),
        OutFault::ReadFailed(read) => writeln!(
            f,
            "{out} could be read for {read} bytes only, so it was not replaced"
        ),
        OutFault::Changed => {
            writeln!(
                f,
                "another command changed {out} meanwhile\nhint: run this command again"
            )
        }
        OutFault::NotSynced => writeln!(
            f,
            "{out} is written, but its folder could not be synced: a power cut now may bring back the old file",
        ),
    }
}

// Writes why the output was not made, or was not put in place.
fn write_not_opened<W: fmt::Write>(f: &mut fmt::Formatter<W>, paths: &Paths<'_>) -> fmt::Result {
    let out = Shown(paths.out);
    match paths.command {
        SpecialCommand::Office => writeln!(
            f,
            "{out} cannot be made: it exists already, its folder is not there, you may not write there, or its name has more than 230 bytes"
        ),
        SpecialCommand::Export => writeln!(
            f,
            "{out} cannot be made: it is not an empty folder, the folder around it is not there, you may not write there, or the name of a key's file is too long"
        ),
        _ => writeln!(
            f,
            "{out} cannot be written: the folder does not exist, you lack permission, it is a mount of its own (mount its folder instead), or it is also the standard output",
        ),
    }
}

// Writes that a new file or a new folder is there, and what to do with it.
fn write_new_exists<W: fmt::Write>(f: &mut fmt::Formatter<W>, paths: &Paths<'_>) -> fmt::Result {
    let out = Shown(paths.out);
    match paths.command {
        SpecialCommand::Export => writeln!(
            f,
            "{out}.new is there: another command writes {out}, or one was stopped\nhint: run this command again; if no crsreg runs, remove {out}.new"
        ),
        _ => {
            let new = NewBeside(paths.out);
            writeln!(
                f,
                "{new} is there: another command writes {out}, or was stopped on another machine\nhint: run this command again; if no crsreg runs on any machine, remove {new}"
            )
        }
    }
}

// Writes what has the new register if writing failed.
fn write_failed<W: fmt::Write>(
    f: &mut fmt::Formatter<W>,
    written: usize,
    is_written: bool,
    paths: &Paths<'_>,
) -> fmt::Result {
    if is_written {
        let place = if paths.out.is_empty() {
            Shown(paths.shelf)
        } else {
            Shown(paths.out)
        };
        return writeln!(
            f,
            "{place} is written, but printing failed after {written} bytes: the disk is full, or nothing reads the output any more",
        );
    }
    write!(
        f,
        "writing failed after {written} bytes: the disk is full, or nothing reads the output any more"
    )?;
    if !paths.out.is_empty() {
        let out = Shown(paths.out);
        write!(f, "; {out} is not replaced")?;
    }
    f.write_str("\n")
}
