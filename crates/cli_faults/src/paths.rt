//! The command and its files, for the sentence about a fault.
use byte_out::FileId;
use clap::ArgMatches;
use cli_open::{STANDARD_INPUT, names, office_file, word};
use cli_sentences::{FileName, Paths, SpecialCommand};
use cli_words::{CommandName, CommandRow, Role};
use csv_table::offices::Name;
use std::alloc::AllocError;
use std::fs;
use std::os::unix::fs::MetadataExt;

/// A file, and when it was last written.
#[derive(Clone, Copy, PartialEq, Eq)]
pub struct LastWrite {
    file: FileId,
    second: i64,
    nanosecond: i64,
}

impl LastWrite {
    // The file that the path leads to, if there is one.
    fn at(rt: &HostRuntime, path: &str) -> Option<LastWrite> {
        let file = FileId::at(rt, path)?;
        let times = fs::metadata(rt, path).ok()?;
        Some(LastWrite {
            file,
            second: times.mtime(),
            nanosecond: times.mtime_nsec(),
        })
    }
}

/// A command and its files.
#[derive(Drop)]
pub struct CommandFiles<'a> {
    pub command: SpecialCommand,
    /// Whether `--keep-going` is given.
    pub keeps_going: bool,
    /// The files that it reads, in the order of their numbers; for `status`, its shelves.
    pub files: Vec<FileName<'a>>,
    /// Whether the first of them is an office file.
    pub has_office: bool,
    /// The register that it reads, if any.
    pub register: &'a str,
    /// The file that it writes, if any.
    pub out: &'a str,
    /// What was there before the command, if anything.
    pub before: Option<LastWrite>,
    /// Its shelf, if any.
    pub shelf: &'a str,
    /// Whether it changes its shelf.
    pub changes_shelf: bool,
    /// The names of offices; none if they cannot be read.
    pub names: Vec<Name>,
}

impl<'a> CommandFiles<'a> {
    /// The files of the command.
    pub fn of(
        rt: &HostRuntime,
        name: CommandName,
        matches: &ArgMatches<'a>,
    ) -> Result<CommandFiles<'a>, AllocError> {
        let row = name.row();
        let shelf = row.shelf(matches.get_flag("shelf")).unwrap_or("");
        let is_dry = matches.get_flag("dry-run");
        let out = if is_dry {
            ""
        } else {
            out_named(row, matches, shelf)
        };
        Ok(CommandFiles {
            command: command_of(name, matches),
            keeps_going: matches.get_flag("keep-going"),
            files: files_named(rt, row, matches, shelf)?,
            has_office: office_file(matches).is_some(),
            register: word(matches, row.register().unwrap_or("")),
            out,
            before: LastWrite::at(rt, out),
            shelf: word(matches, shelf),
            changes_shelf: !shelf.is_empty() && !is_dry && row.keeps_shelf(),
            names: names_if_read(rt, matches)?,
        })
    }

    /// The same, borrowed.
    pub fn paths(&self) -> Paths<'_> {
        Paths {
            command: self.command,
            keeps_going: self.keeps_going,
            files: self.files.as_slice(),
            has_office: self.has_office,
            register: self.register,
            out: self.out,
            shelf: self.shelf,
        }
    }

    /// Whether a command that fails to write has replaced its output or changed its shelf, as far as can be seen. On a shelf it prints
    /// last.
    pub fn is_written(&self, rt: &HostRuntime) -> bool {
        if self.changes_shelf {
            return true;
        }
        match (self.before, LastWrite::at(rt, self.out)) {
            (Some(before), Some(now)) => now.file != before.file,
            (before, now) => before.is_none() && now.is_some(),
        }
    }

    /// Whether the output has other bytes than before, perhaps not all of them: it was written in place.
    pub fn is_written_in_place(&self, rt: &HostRuntime) -> bool {
        match (self.before, LastWrite::at(rt, self.out)) {
            (Some(before), Some(now)) => now.file == before.file && now != before,
            _ => false,
        }
    }
}

// The names of offices; none if they cannot be read.
fn names_if_read(rt: &HostRuntime, matches: &ArgMatches<'_>) -> Result<Vec<Name>, AllocError> {
    match names(rt, matches) {
        Ok(names) => Ok(names),
        Err(problem) if problem.is_memory() => Err(AllocError),
        Err(_) => Ok(Vec::new(rt.alloc())),
    }
}

// The command, if it has sentences of its own.
fn command_of(name: CommandName, matches: &ArgMatches<'_>) -> SpecialCommand {
    match name {
        CommandName::Export => SpecialCommand::Export,
        CommandName::Find | CommandName::Log => SpecialCommand::Find,
        CommandName::Import => SpecialCommand::Import {
            revises: word(matches, "differs") == "revise",
        },
        CommandName::Lint => SpecialCommand::Lint,
        CommandName::Diff | CommandName::Merge => SpecialCommand::Merge,
        CommandName::Office => SpecialCommand::Office,
        CommandName::Settle => SpecialCommand::Settle,
        CommandName::Shelf => SpecialCommand::Shelf,
        CommandName::Status => SpecialCommand::Status,
        CommandName::Take => SpecialCommand::Take,
        CommandName::Unshelf => SpecialCommand::Unshelf,
        CommandName::Supersede if matches.contains_id("from") => SpecialCommand::SupersedeFrom {
            keys: matches.get_flag("keys"),
        },
        _ => SpecialCommand::Other,
    }
}

// The files that the command reads, in the order of their numbers. A shelf has no number.
fn files_named<'a>(
    rt: &HostRuntime,
    row: &CommandRow,
    matches: &ArgMatches<'a>,
    shelf: &str,
) -> Result<Vec<FileName<'a>>, AllocError> {
    let mut files = Vec::new(rt.alloc());
    if let Some(file) = office_file(matches) {
        files.push(FileName::Path(file))?;
    }
    for argument in row.arguments {
        if argument.role.is_read() && argument.name != shelf {
            let paths = matches.get_strs(argument.name).unwrap_or(&[]);
            push_files(&mut files, argument.role, paths)?;
        }
    }
    if ids_are_listed(row, matches) {
        files.push(FileName::StandardInput)?;
    }
    Ok(files)
}

// Appends the files that an argument with this role names.
fn push_files<'a>(
    files: &mut Vec<FileName<'a>>,
    role: Role,
    paths: &[&'a str],
) -> Result<(), AllocError> {
    for path in paths {
        let is_dash = role == Role::InputOrDash && *path == STANDARD_INPUT;
        files.push(if is_dash {
            FileName::StandardInput
        } else {
            FileName::Path(*path)
        })?;
    }
    Ok(())
}

// The file that is written, if it is not the shelf.
fn out_named<'a>(row: &CommandRow, matches: &ArgMatches<'a>, shelf: &str) -> &'a str {
    match row.output() {
        Some(argument) if argument != shelf => word(matches, argument),
        _ => "",
    }
}

// Whether the ids of entries are read from standard input.
fn ids_are_listed(row: &CommandRow, matches: &ArgMatches<'_>) -> bool {
    match row.with_role(Role::Entries) {
        Some(argument) => matches
            .get_strs(argument)
            .unwrap_or(&[])
            .contains(&STANDARD_INPUT),
        None => false,
    }
}
