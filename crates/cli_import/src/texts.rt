//! The files of texts of an import, and what is said of one that did not open or is no file of texts.

use crate::own_file::TextFile;
use byte_io::{LateFile, LateSource};
use cli_open::{STANDARD_INPUT, STANDARD_INPUT_PATH};
use reg_desk::{ImportFault, Unimported};
use reg_engine::{CliFault, InputFault};
use std::alloc::{AllocError, Global};
use std::rt::Files;

/// Whether a text was refused that is a file of crsreg. The first file has this number.
pub fn refuses_own<S: LateSource>(
    answer: &Result<(), Unimported>,
    files: &[TextFile<S>],
    first: usize,
) -> bool {
    let Err(why) = answer else {
        return false;
    };
    let ImportFault::Refused { file, .. } = &why.fault else {
        return false;
    };
    match files.get(file.saturating_sub(first)) {
        Some(file) => file.is_own(),
        None => false,
    }
}

/// The files of texts, which are opened one after another; `-` is standard input.
pub fn late_texts<'a, R: Files>(
    rt: &'a R,
    alloc: Global,
    paths: &[&'a str],
) -> Result<Vec<TextFile<LateFile<'a, R>>>, AllocError> {
    let mut files = Vec::new(alloc);
    for path in paths {
        let path = if *path == STANDARD_INPUT {
            STANDARD_INPUT_PATH
        } else {
            *path
        };
        files.push(TextFile::new(alloc, LateFile::new(rt, path)))?;
    }
    Ok(files)
}

/// Turns "could not be read" into `NotOpened` for files that did not open. The first file has this number.
pub fn with_openings<S: LateSource>(
    alloc: Global,
    answer: Result<(), Unimported>,
    files: &[S],
    first: usize,
) -> Result<(), Unimported> {
    match answer {
        Ok(()) => Ok(()),
        Err(why) => {
            let Unimported { fault, notes } = why;
            match fault {
                ImportFault::Cli(fault) => {
                    let fault = fault_of_opening(fault, files, first);
                    Err(Unimported::plain(alloc, fault))
                }
                fault => Err(Unimported { fault, notes }),
            }
        }
    }
}

fn fault_of_opening<S: LateSource>(fault: CliFault, files: &[S], first: usize) -> CliFault {
    let CliFault::File { number, .. } = fault else {
        return fault;
    };
    let Some(i) = number.checked_sub(first) else {
        return fault;
    };
    match files.get(i) {
        Some(file) if file.is_shut() => CliFault::File {
            number,
            fault: InputFault::NotOpened,
        },
        _ => fault,
    }
}
