//! Sentences for commands with an office file.
use crate::paths::{FileName, Paths, RegisterArgument, SpecialCommand};
use crate::shown::NewBeside;
use reg_op::OpId;
use std::fmt;

/// Writes the sentence for a register that knows no number of the office, and the ways out.
pub fn write_behind<W: fmt::Write>(
    f: &mut fmt::Formatter<W>,
    id: OpId,
    paths: &Paths<'_>,
) -> fmt::Result {
    let office = paths.file(1);
    let register = RegisterArgument::of(paths);
    writeln!(
        f,
        "the office of {office} has given {id}, and the register knows no number of this office: it is another register, or a copy from before the office's first command"
    )?;
    writeln!(
        f,
        "hint: if it is the office's register, crsreg take {register} --office {office} brings all that the office made; else make a new office with crsreg office, since an office file is for one register"
    )
}

/// Writes the sentence for a number that somebody else gave in the office's name, and the way out.
pub fn write_forged<W: fmt::Write>(
    f: &mut fmt::Formatter<W>,
    id: OpId,
    paths: &Paths<'_>,
) -> fmt::Result {
    let office = paths.file(1);
    writeln!(
        f,
        "{office} does not know {id}: somebody gave this number in the name of its office (with --as, or a second copy of the office file), or the office file was put back from a backup"
    )?;
    if let SpecialCommand::Take = paths.command {
        return f.write_str(
            "hint: if a file has it, --keep-going leaves that file out, and --from UUID takes of it only what that office made; if the register has it, go on with a new office, which crsreg office makes\n",
        );
    }
    f.write_str(
        "hint: go on with a new office, which crsreg office makes: the register keeps all that it has\n",
    )
}

/// Writes the sentence for an office file that was not replaced.
pub fn write_unnoted<W: fmt::Write>(
    f: &mut fmt::Formatter<W>,
    is_too_large: bool,
    paths: &Paths<'_>,
) -> fmt::Result {
    let office = paths.file(1);
    if is_too_large {
        return writeln!(
            f,
            "{office} would have more than 67,108,864 bytes with what this command makes\nhint: go on with a new office, which crsreg office makes"
        );
    }
    writeln!(
        f,
        "{office} could not be replaced by its new file: the disk is full, or you may not write there; the register is not changed"
    )
}

/// Writes what to do about an entry that is retired or superseded already, if the office file may have what the register lacks.
pub fn write_again<W: fmt::Write>(f: &mut fmt::Formatter<W>, paths: &Paths<'_>) -> fmt::Result {
    if !paths.has_office {
        return Ok(());
    }
    let office = paths.file(1);
    let register = RegisterArgument::of(paths);
    writeln!(
        f,
        "hint: where the register does not show this, the office file has it, and crsreg take {register} --office {office} brings it"
    )
}

/// Writes the sentence for an office file that does not open, or whose new file cannot be made.
pub fn write_unopened<W: fmt::Write>(
    f: &mut fmt::Formatter<W>,
    office: FileName<'_>,
) -> fmt::Result {
    writeln!(
        f,
        "{office} (file 1) cannot be opened, or its new file cannot be made beside it: it is not there, you may not read it or write there, or it has a second name (a hard link), which would keep what it has now"
    )
}

/// Writes the sentence for an office file that another command has, and the way out.
pub fn write_busy<W: fmt::Write>(f: &mut fmt::Formatter<W>, office: FileName<'_>) -> fmt::Result {
    let FileName::Path(path) = office else {
        return f.write_str("another command of this office works\n");
    };
    let new = NewBeside(path);
    writeln!(
        f,
        "{new} is there: another command of this office works, or was stopped on another machine\nhint: run this command again; if no crsreg runs on any machine, remove {new}"
    )
}

/// Writes the sentence for an office file that was not read to its end.
pub fn write_unread<W: fmt::Write>(
    f: &mut fmt::Formatter<W>,
    bytes: usize,
    office: FileName<'_>,
) -> fmt::Result {
    writeln!(f, "{office} (file 1) could not be read after {bytes} bytes")
}

/// Writes the sentence for a file that is no office file, and the way out.
pub fn write_foreign<W: fmt::Write>(
    f: &mut fmt::Formatter<W>,
    office: FileName<'_>,
) -> fmt::Result {
    writeln!(f, "{office} (file 1) is no office file")?;
    f.write_str("hint: crsreg office makes one\n")
}
