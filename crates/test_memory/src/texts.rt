//! Calls on texts.

use crate::outcome::TestOutcome;
use crate::{ready, word};
use reg_op::{Note, NoteFault};
use std::{fs, io};
use wkt_crs::{Definition, DefinitionFault, ReadFault, read_crs, write_pretty};

/// Reads a text: `read FILE`.
pub fn read(rt: &HostRuntime, words: &[String]) -> io::Result<TestOutcome> {
    let text = fs::read(rt, word(words, 2))?;
    ready(rt)?;
    Ok(match read_crs(rt.alloc(), &text) {
        Ok(_) => TestOutcome::Done,
        Err(fault) => of_fault(fault),
    })
}

fn of_fault(fault: ReadFault) -> TestOutcome {
    match fault {
        ReadFault::Text(fault) => match fault.place() {
            Some(place) => TestOutcome::Fault(fault.name(), place),
            None => TestOutcome::Wrong,
        },
        ReadFault::Slot(fault) => TestOutcome::Fault(fault.name(), fault.place()),
        ReadFault::Broken { condition, place } => TestOutcome::Fault(condition.name(), place),
        ReadFault::Memory => TestOutcome::Memory,
    }
}

/// Writes the indented text of a value: `indent FILE`.
pub fn indent(rt: &HostRuntime, words: &[String]) -> io::Result<TestOutcome> {
    let text = fs::read(rt, word(words, 2))?;
    let Ok(crs) = read_crs(rt.alloc(), &text) else {
        return Ok(TestOutcome::Memory);
    };
    ready(rt)?;
    Ok(TestOutcome::of(write_pretty(rt.alloc(), &crs).is_ok()))
}

/// Makes a definition of a canonical text: `define FILE`.
pub fn define(rt: &HostRuntime, words: &[String]) -> io::Result<TestOutcome> {
    let text = fs::read(rt, word(words, 2))?;
    ready(rt)?;
    Ok(match Definition::from_canonical(rt.alloc(), &text) {
        Ok(_) => TestOutcome::Done,
        Err(DefinitionFault::Memory) => TestOutcome::Memory,
        Err(_) => TestOutcome::Wrong,
    })
}

/// Makes a note: `note FILE`.
pub fn note(rt: &HostRuntime, words: &[String]) -> io::Result<TestOutcome> {
    let text = fs::read(rt, word(words, 2))?;
    ready(rt)?;
    Ok(match Note::new(rt.alloc(), &text) {
        Ok(_) => TestOutcome::Done,
        Err(fault) => match fault {
            NoteFault::Memory => TestOutcome::Memory,
            NoteFault::NoteTooLong => TestOutcome::Fault("NoteTooLong", 200),
            NoteFault::NoteNotUtf8 => TestOutcome::Fault("NoteNotUtf8", 0),
        },
    })
}
