//! What a sentence depends on beside the fault: the command, its files, and what is found in them afterwards.
use crate::shown::Shown;
use std::fmt;

/// The name of a file that a command reads.
#[derive(Clone, Copy)]
pub enum FileName<'a> {
    StandardInput,
    Path(&'a str),
}

impl FileName<'_> {
    /// Writes the file as the argument FILE in a hint.
    pub(crate) fn write_argument<W: fmt::Write>(self, f: &mut fmt::Formatter<W>) -> fmt::Result {
        match self {
            FileName::StandardInput => f.write_str("FILE"),
            FileName::Path(path) => write_argument(f, path, "FILE"),
        }
    }

    /// Writes the hint for a file named `-` that is not there. Most arguments do not mean standard input by it.
    pub(crate) fn write_hint<W: fmt::Write>(self, f: &mut fmt::Formatter<W>) -> fmt::Result {
        match self {
            FileName::Path("-") => f.write_str(
                "hint: here - is the name of a file; give /dev/stdin for standard input\n",
            ),
            _ => Ok(()),
        }
    }
}

impl fmt::Display for FileName<'_> {
    fn fmt<W: fmt::Write>(&self, f: &mut fmt::Formatter<W>) -> fmt::Result {
        match self {
            FileName::StandardInput => f.write_str("standard input"),
            FileName::Path(path) => Shown(*path).fmt(f),
        }
    }
}

/// A command with sentences of its own.
#[derive(Clone, Copy)]
pub enum SpecialCommand {
    /// `export`, which can leave out keys.
    Export,
    /// `find` and `log`, which look at retired entries too.
    Find,
    /// `import`, which can leave out texts, and with `--differs revise` retires entries.
    Import { revises: bool },
    /// `lint`, which looks at texts too, and reads a file of its rows.
    Lint,
    /// `merge` and `diff`, which have all their files open at once.
    Merge,
    /// `office`, which makes a new file.
    Office,
    /// `settle`, which takes only ids.
    Settle,
    /// `shelf`, which makes a shelf.
    Shelf,
    /// `status`, which reads several shelves.
    Status,
    /// `supersede --from`, with `-k` or without.
    SupersedeFrom { keys: bool },
    /// `take`, which can leave out files.
    Take,
    /// `unshelf`, which always reads a shelf.
    Unshelf,
    Other,
}

/// A command and its files, as written on the command line.
#[derive(Clone, Copy)]
pub struct Paths<'a> {
    pub command: SpecialCommand,
    /// Whether `--keep-going` is given.
    pub keeps_going: bool,
    /// The files that it reads, in the order of their numbers. The first is file 1.
    pub files: &'a [FileName<'a>],
    /// Whether the first of them is an office file.
    pub has_office: bool,
    /// The register that it reads, in a file or on a shelf; empty if there is none.
    pub register: &'a str,
    /// The file or the folder that it writes; empty if there is none.
    pub out: &'a str,
    /// The shelf that it reads or changes; empty if there is none.
    pub shelf: &'a str,
}

impl<'a> Paths<'a> {
    /// The file with this number, from 1; standard input if the command names no such file.
    pub fn file(&self, number: usize) -> FileName<'a> {
        match self.files.get(number.saturating_sub(1)) {
            Some(file) => *file,
            None => FileName::StandardInput,
        }
    }
}

/// The register of a command as its argument REG in a hint: on a shelf, with `--shelf`.
#[derive(Clone, Copy)]
pub(crate) struct RegisterArgument<'a> {
    path: &'a str,
    is_shelf: bool,
}

impl<'a> RegisterArgument<'a> {
    pub(crate) fn of(paths: &Paths<'a>) -> RegisterArgument<'a> {
        RegisterArgument {
            path: paths.register,
            is_shelf: !paths.shelf.is_empty(),
        }
    }
}

impl fmt::Display for RegisterArgument<'_> {
    fn fmt<W: fmt::Write>(&self, f: &mut fmt::Formatter<W>) -> fmt::Result {
        write_argument(f, self.path, "REG")?;
        if self.is_shelf {
            f.write_str(" --shelf")?;
        }
        Ok(())
    }
}

// Writes a path as an argument in a hint, or the argument's name if the path is not known or, as one of a pipe, cannot be read again.
fn write_argument<W: fmt::Write>(f: &mut fmt::Formatter<W>, path: &str, name: &str) -> fmt::Result {
    if path.is_empty() || path.starts_with("/dev/") {
        return f.write_str(name);
    }
    let path = Shown(path);
    write!(f, "{path}")
}

/// What a file that is no register seems to be.
#[derive(Clone, Copy)]
pub enum Looks {
    Unknown,
    Shelf,
    Office,
    Text,
}

/// What is found if the files are read once more after the fault.
#[derive(Clone, Copy)]
pub struct Findings<'a> {
    /// The key, the id and the status of the entry that the fault names, where they are known.
    pub head: Option<&'a str>,
    /// Whether the word that the fault is about is several keys.
    pub has_namesake: bool,
    /// The word of a list that the fault is about; empty if it is about none.
    pub word: &'a str,
    /// What the file that the fault is about seems to be.
    pub looks: Looks,
    /// Whether the command has replaced its output or changed its shelf, as far as can be seen.
    pub is_written: bool,
    /// Whether the register has an entry of the word that is not retired, although the command found none.
    pub shows: bool,
}
