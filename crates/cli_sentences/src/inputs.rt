//! Sentences for files that cannot be read.
use crate::guard;
use crate::paths::{FileName, Looks, Paths, SpecialCommand};
use reg_engine::InputFault;
use reg_file::FileFault;
use std::fmt;

/// The number of open files from which a command may have too many of them.
const MANY: usize = 16;

/// What is wrong with a file that is to have rows of `lint`.
const NO_ROWS: &str =
    "does not begin as what crsreg lint prints, with rule,entry,authority,code,name,detail\nhint: crsreg lint makes such a file; other columns come behind these\n";

/// Writes the sentence for a fault of the file with this number, which seems to be this.
pub fn write<W: fmt::Write>(
    f: &mut fmt::Formatter<W>,
    number: usize,
    fault: InputFault,
    looks: Looks,
    paths: &Paths<'_>,
) -> fmt::Result {
    let path = paths.file(number);
    let is_office = paths.has_office && number == 1;
    match fault {
        InputFault::NotOpened if is_office => guard::write_unopened(f, path),
        InputFault::ReadFailed(place) if is_office => guard::write_unread(f, place, path),
        InputFault::Busy => guard::write_busy(f, path),
        InputFault::NotOffice => guard::write_foreign(f, path),
        InputFault::NotOpened => {
            write!(
                f,
                "{path} (file {number}) cannot be opened: it is not there, or you may not read it"
            )?;
            write_many(f, number, paths)?;
            path.write_hint(f)
        }
        InputFault::ReadFailed(place) => {
            writeln!(
                f,
                "reading {path} (file {number}) failed after {place} bytes"
            )
        }
        InputFault::TooLarge => {
            writeln!(f, "{path} (file {number}) has more than 67,108,864 bytes")
        }
        InputFault::BadFile { fault, place } => {
            write!(f, "{path} (file {number}) ")?;
            if is_of_rows(number, paths) {
                return f.write_str(NO_ROWS);
            }
            write_bad(f, number, fault, place, looks, paths)
        }
    }
}

// Writes that the command may have too many open files, if it has many, and the end of the line.
fn write_many<W: fmt::Write>(
    f: &mut fmt::Formatter<W>,
    number: usize,
    paths: &Paths<'_>,
) -> fmt::Result {
    if let SpecialCommand::Merge = paths.command {
        if number >= MANY {
            f.write_str(", or too many files are open")?;
        }
    }
    f.write_str("\n")
}

// Writes what is wrong with the bytes of a file.
fn write_bad<W: fmt::Write>(
    f: &mut fmt::Formatter<W>,
    number: usize,
    fault: FileFault,
    place: usize,
    looks: Looks,
    paths: &Paths<'_>,
) -> fmt::Result {
    match fault {
        FileFault::Magic => write_foreign(f, number, looks, paths),
        FileFault::Version => f.write_str(
            "has a version that this program does not know\nhint: use the newest crsreg; crsreg downgrade writes version 1\n",
        ),
        FileFault::Kind => f.write_str(
            "is of another kind: a register, a summary (crsreg seen) and a piece (crsreg piece) are three kinds\n",
        ),
        FileFault::Truncated => {
            writeln!(
                f,
                "ends after {place} bytes: it was cut\nhint: copy it again from where it is whole"
            )
        }
        FileFault::Trailing => {
            writeln!(
                f,
                "goes on after its end, at byte {place}\nhint: copy it again from where it is whole"
            )
        }
        fault => writeln!(
            f,
            "is damaged at byte {place}: {fault}\nhint: copy it again from where it is whole",
        ),
    }
}

// Whether the command reads a shelf in the place of the file with this number if `--shelf` is given.
fn could_be_shelf(number: usize, paths: &Paths<'_>) -> bool {
    if let SpecialCommand::Status = paths.command {
        return true;
    }
    if !paths.shelf.is_empty() || paths.register.is_empty() {
        return false;
    }
    is_register(number, paths)
}

// Whether the file with this number is the register of the command.
fn is_register(number: usize, paths: &Paths<'_>) -> bool {
    match paths.file(number) {
        FileName::Path(path) => path == paths.register,
        FileName::StandardInput => false,
    }
}

// Whether the file with this number is to have rows of `lint`: it reads no other file that is not a text or its register.
fn is_of_rows(number: usize, paths: &Paths<'_>) -> bool {
    match paths.command {
        SpecialCommand::Lint => !is_register(number, paths),
        _ => false,
    }
}

// Writes that a file is no register, and what crsreg does with such a file.
fn write_foreign<W: fmt::Write>(
    f: &mut fmt::Formatter<W>,
    number: usize,
    looks: Looks,
    paths: &Paths<'_>,
) -> fmt::Result {
    match looks {
        Looks::Unknown => f.write_str("is not a file of crsreg\n"),
        Looks::Shelf => {
            f.write_str("is a shelf, and no file of a register\n")?;
            f.write_str(if could_be_shelf(number, paths) {
                "hint: for a shelf give --shelf\n"
            } else {
                "hint: crsreg unshelf writes its register to a file\n"
            })
        }
        Looks::Office => f.write_str("is an office file, and no file of a register\n"),
        Looks::Text => {
            f.write_str("is not a file of crsreg\nhint: it has a text: ")?;
            f.write_str(match paths.command {
                SpecialCommand::Lint => "crsreg lint --texts looks at texts\n",
                _ => "crsreg import reads texts\n",
            })
        }
    }
}
