//! The environment variables that give defaults.
use cli_open::{MISUSE, complain, failed};
use cli_words::Defaults;
use reg_engine::CliFault;
use std::env::{self, VarError};
use std::io::IsTerminal;

/// The UUID of the office.
const OFFICE: &str = "CRSREG_AS";

/// The office file of the office.
const OFFICE_FILE: &str = "CRSREG_OFFICE";

/// The note of operations.
const NOTE: &str = "CRSREG_NOTE";

/// The file with the names of offices.
const NAMES: &str = "CRSREG_NAMES";

/// `1` if commands take keys instead of ids.
const KEYS: &str = "CRSREG_KEYS";

/// `1` if commands explain refusals, `0` if they do not. Otherwise they do if standard error is a terminal.
const EXPLAIN: &str = "CRSREG_EXPLAIN";

/// `1` if commands print rows as a table.
const TABLE: &str = "CRSREG_TABLE";

/// The office if its variable is not UTF-8. It is not a UUID.
const NO_UUID: &str = "?";

const NO_NOTE: &str = "error: CRSREG_NOTE is not UTF-8";

const NO_FILE: &str = "error: CRSREG_OFFICE is not UTF-8";

const NO_NAMES: &str = "error: CRSREG_NAMES is not UTF-8";

/// The variables that are set.
#[derive(Drop)]
pub struct Environment {
    office: Option<String>,
    office_file: Option<String>,
    note: Option<String>,
    names: Option<String>,
    keys: bool,
    explain: bool,
    table: bool,
}

impl Environment {
    /// Reads the variables. If that fails, it reports why, and returns the exit status.
    pub fn read(rt: &HostRuntime) -> Result<Environment, u8> {
        let office = match env::var(rt, OFFICE) {
            Err(VarError::NotUnicode) => match String::from_str(rt.alloc(), NO_UUID) {
                Ok(none) => Some(none),
                Err(_) => return Err(failed(rt, &CliFault::Memory)),
            },
            read => set(rt, read)?,
        };
        let note = text(rt, NOTE, NO_NOTE)?;
        let office_file = text(rt, OFFICE_FILE, NO_FILE)?;
        let names = text(rt, NAMES, NO_NAMES)?;
        Ok(Environment {
            office,
            office_file,
            note,
            names,
            keys: is_one(rt, KEYS)?,
            explain: explains(rt)?,
            table: is_one(rt, TABLE)?,
        })
    }

    /// The defaults of options.
    pub fn defaults(&self) -> Defaults<'_> {
        Defaults {
            office: self.office.as_deref(),
            office_file: self.office_file.as_deref(),
            note: self.note.as_deref(),
            names: self.names.as_deref(),
            keys: self.keys,
            explain: self.explain,
            table: self.table,
        }
    }
}

// The value of a variable, which has to be UTF-8.
fn text(rt: &HostRuntime, name: &str, mistake: &'static str) -> Result<Option<String>, u8> {
    match env::var(rt, name) {
        Err(VarError::NotUnicode) => Err(complain(rt, &mistake, MISUSE)),
        read => set(rt, read),
    }
}

// Whether a variable is `1`.
fn is_one(rt: &HostRuntime, name: &str) -> Result<bool, u8> {
    match value(rt, name)? {
        Some(word) => Ok(word.as_str() == "1"),
        None => Ok(false),
    }
}

// Whether commands explain refusals.
fn explains(rt: &HostRuntime) -> Result<bool, u8> {
    let Some(word) = value(rt, EXPLAIN)? else {
        return Ok(rt.stderr().is_terminal());
    };
    match word.as_str() {
        "1" => Ok(true),
        "0" => Ok(false),
        _ => Ok(rt.stderr().is_terminal()),
    }
}

// The value of a variable, or none if it is not UTF-8.
fn value(rt: &HostRuntime, name: &str) -> Result<Option<String>, u8> {
    match env::var(rt, name) {
        Err(VarError::NotUnicode) => Ok(None),
        read => set(rt, read),
    }
}

// The value of a variable. An empty one counts as unset.
fn set(rt: &HostRuntime, read: Result<String, VarError>) -> Result<Option<String>, u8> {
    match read {
        Ok(word) if word.is_empty() => Ok(None),
        Ok(word) => Ok(Some(word)),
        Err(VarError::OutOfMemory) => Err(failed(rt, &CliFault::Memory)),
        Err(_) => Ok(None),
    }
}
