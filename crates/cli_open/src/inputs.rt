//! Opens the registers that a command reads, and finds the one that OUT replaces.

ghost use Rattle.std.specs.Prelude.{◌≡◌, Ok, true, bytes_eq};

use byte_io::Reading;
use byte_out::{FileId, InputOf};
use clap::ArgMatches;
use reg_engine::{CliFault, InputFault};
use std::alloc::Global;
use std::fs;
use std::io::ErrorKind;
use std::rt::Files;

/// The file that OUT replaces, as the command line names it.
#[derive(Drop)]
pub struct Replaced<'a> {
    path: &'a str,
    real: Option<String>,
}

impl<'a> Replaced<'a> {
    /// The file that the argument with this name names.
    pub fn named<R: Files>(
        rt: &R,
        alloc: Global,
        matches: &ArgMatches<'a>,
        name: &str,
    ) -> Result<Replaced<'a>, CliFault> {
        Replaced::at(rt, alloc, matches.get_str(name).unwrap_or(""))
    }

    /// The file at this path.
    pub fn at<R: Files>(rt: &R, alloc: Global, path: &'a str) -> Result<Replaced<'a>, CliFault> {
        let real = real_path(rt, alloc, path)?;
        Ok(Replaced { path, real })
    }

    // Whether it is the file that was opened at the path. Another command may have replaced that file meanwhile, so equal
    // paths count as the same file, too.
    fn is<R: Files>(
        &self,
        rt: &R,
        alloc: Global,
        path: &str,
        file: &R::File,
    ) -> Result<bool, CliFault>
        ensures { bytes_eq self.now.path.now path.now ≡ true → result ≡ Ok true }
    {
        if self.path == path {
            return Ok(true);
        }
        if let Some(id) = FileId::at(rt, self.path) {
            if id.is_of(file) {
                return Ok(true);
            }
        }
        let real = real_path(rt, alloc, path)?;
        Ok(real.is_some() && real == self.real)
    }
}

/// The path without links, if there is a file.
pub fn real_path<R: Files>(rt: &R, alloc: Global, path: &str) -> Result<Option<String>, CliFault> {
    match rt.canonicalize(alloc, path) {
        Ok(real) => Ok(Some(real.into_string())),
        Err(error) if error.kind() == ErrorKind::OutOfMemory => Err(CliFault::Memory),
        Err(_) => Ok(None),
    }
}

/// Opens the file with this number. If OUT replaces it, its bytes are kept.
pub fn open_input<R: Files>(
    rt: &R,
    alloc: Global,
    number: usize,
    path: &str,
    out: &Option<Replaced<'_>>,
) -> Result<InputOf<Reading<R::File>>, CliFault> {
    let Ok(file) = fs::open(rt, path) else {
        return Err(CliFault::File {
            number,
            fault: InputFault::NotOpened,
        });
    };
    let keeps = match out {
        Some(out) => out.is(rt, alloc, path, &file)?,
        None => false,
    };
    Ok(InputOf::new(alloc, Reading::new(file), keeps))
}

/// Opens all files in the same way, in order, before the first is read. The first is file 1.
pub fn open_inputs<R: Files>(
    rt: &R,
    alloc: Global,
    paths: &[&str],
    out: &Option<Replaced<'_>>,
) -> Result<Vec<InputOf<Reading<R::File>>>, CliFault> {
    let mut sources = Vec::new(alloc);
    for (i, path) in paths.iter().enumerate() {
        let source = open_input(rt, alloc, i.saturating_add(1), *path, out)?;
        if sources.push(source).is_err() {
            return Err(CliFault::Memory);
        }
    }
    Ok(sources)
}

/// The folder of a path, and its last part.
pub fn parts(path: &str) -> (&str, &str) {
    match path.rsplit_once('/') {
        Some(("", name)) => ("/", name),
        Some((folder, name)) => (folder, name),
        None => (".", path),
    }
}
