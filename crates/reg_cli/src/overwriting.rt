//! Outputs that a command would destroy: an office file, or a shelf, in the place of the register that it writes.
use clap::ArgMatches;
use cli_exchange::shelf_size;
use cli_faults::{FileHead, Spoiled};
use cli_open::word;
use cli_words::{CommandName, Role};
use std::rt::Files;

const OUT_IS_OFFICE: &str = "error: OUT is an office file";

const OUT_IS_SHELF: &str =
    "error: OUT is a shelf, which a file would replace: --shelf changes a shelf";

const NEW_IS_OFFICE: &str = "error: NEW is an office file";

/// What is wrong with the file that the command would replace: nobody replaces an office file by a register on purpose, nor a shelf by
/// a file. The fault is the place from which on it cannot be read.
pub fn overwritten<R: Files>(
    rt: &R,
    name: CommandName,
    matches: &ArgMatches<'_>,
) -> Result<Option<&'static str>, usize> {
    match name {
        // It replaces nothing.
        CommandName::Office => Ok(None),
        // It is refused before NEW is opened.
        CommandName::Shelf if shelf_size(matches).is_none() => Ok(None),
        // It replaces a shelf by an empty one, as its help says.
        CommandName::Shelf => match spoiled(rt, word(matches, "NEW"))? {
            Some(Spoiled::Office) => Ok(Some(NEW_IS_OFFICE)),
            _ => Ok(None),
        },
        _ => {
            let Some(path) = output(name, matches) else {
                return Ok(None);
            };
            match spoiled(rt, path)? {
                Some(Spoiled::Office) => Ok(Some(OUT_IS_OFFICE)),
                Some(Spoiled::Shelf) => Ok(Some(OUT_IS_SHELF)),
                None => Ok(None),
            }
        }
    }
}

fn spoiled<R: Files>(rt: &R, path: &str) -> Result<Option<Spoiled>, usize> {
    match FileHead::at(rt, path)? {
        Some(head) => Ok(head.spoils()),
        None => Ok(None),
    }
}

// The file that the command writes, unless it is its shelf. A register that it reads and changes is no office file, or it is refused.
fn output<'a>(name: CommandName, matches: &ArgMatches<'a>) -> Option<&'a str> {
    let row = name.row();
    let argument = row.with_role(Role::Output)?;
    if row.shelf(matches.get_flag("shelf")) == Some(argument) {
        return None;
    }
    matches.get_str(argument)
}
