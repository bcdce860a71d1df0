//! The answer of a call.

use byte_system::{Failed, FileReadFault, FolderSyncFault, Mode, NewFileFault, System, There};
use std::fmt;

/// The answer of a call.
#[derive(Clone, Copy, Debug, PartialEq, Eq)]
pub enum Answer {
    Number(usize),
    Is(bool),
    Done,
    Exists,
    There(There),
    Failed,
    /// The line names no call.
    NoCall,
}

impl fmt::Display for Answer {
    fn fmt<W: fmt::Write>(&self, f: &mut fmt::Formatter<W>) -> fmt::Result {
        match self {
            Answer::Number(number) => write!(f, "{number}"),
            Answer::Is(true) => f.write_str("yes"),
            Answer::Is(false) => f.write_str("no"),
            Answer::Done => f.write_str("done"),
            Answer::Exists => f.write_str("exists"),
            Answer::There(There::Nothing) => f.write_str("nothing"),
            Answer::There(There::Sole) => f.write_str("sole"),
            Answer::There(There::Shared) => f.write_str("shared"),
            Answer::There(There::Other) => f.write_str("other"),
            Answer::Failed => f.write_str("failed"),
            Answer::NoCall => f.write_str("no call"),
        }
    }
}

/// Makes the call that the line names.
pub fn answer_to<S: System>(system: &mut S, line: &str) -> Answer {
    let mut words = line.split(' ');
    let call = words.next().unwrap_or("");
    let first = words.next().unwrap_or("");
    let second = words.next().unwrap_or("");
    match call {
        "make" => made(system, first),
        "look" => there(system.look(first.as_bytes())),
        "alike" => done(system.make_alike(file(first), second.as_bytes())),
        "open" => number(system.open(first.as_bytes())),
        "lock" => is(system.lock(file(first))),
        "named" => is(system.is_named(first.as_bytes(), file(second))),
        "write" => Answer::Number(system.write(file(first), second.as_bytes())),
        "sync" => done(system.sync(file(first))),
        "has" => had(system.has(first.as_bytes(), second.as_bytes())),
        "rename" => done(system.rename(first.as_bytes(), second.as_bytes())),
        "unlink" => done(system.unlink(first.as_bytes())),
        "folder" => synced(system.sync_folder(first.as_bytes())),
        _ => Answer::NoCall,
    }
}

// The number that a word says. No file has the greatest one.
fn file(word: &str) -> usize {
    word.parse::<usize>().unwrap_or(usize::MAX)
}

fn made<S: System>(system: &mut S, name: &str) -> Answer {
    match system.make(name.as_bytes(), Mode::Usual) {
        Ok(file) => Answer::Number(file),
        Err(NewFileFault::Exists) => Answer::Exists,
        Err(NewFileFault::NotMade) => Answer::Failed,
    }
}

fn there(told: Result<There, Failed>) -> Answer {
    match told {
        Ok(there) => Answer::There(there),
        Err(_) => Answer::Failed,
    }
}

fn had(told: Result<bool, FileReadFault>) -> Answer {
    match told {
        Ok(is) => Answer::Is(is),
        Err(_) => Answer::Failed,
    }
}

fn number(told: Result<usize, Failed>) -> Answer {
    match told {
        Ok(file) => Answer::Number(file),
        Err(_) => Answer::Failed,
    }
}

fn is(told: Result<bool, Failed>) -> Answer {
    match told {
        Ok(is) => Answer::Is(is),
        Err(_) => Answer::Failed,
    }
}

fn done(told: Result<(), Failed>) -> Answer {
    match told {
        Ok(()) => Answer::Done,
        Err(_) => Answer::Failed,
    }
}

fn synced(told: Result<(), FolderSyncFault>) -> Answer {
    match told {
        Ok(()) => Answer::Done,
        Err(_) => Answer::Failed,
    }
}
