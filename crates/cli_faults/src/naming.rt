//! What is found if the files of a command are read once more after its fault, for the sentence about it.
use crate::heads::FileHead;
use crate::namesakes::{has_namesake, shows};
use crate::paths::CommandFiles;
use byte_io::read_up_to;
use cli_open::{open, open_to_read};
use cli_sentences::{FileName, Findings, Looks, Paths, SpecialCommand};
use reg_engine::{CliFault, InputFault, OfFile, OnShelf, OutFault, Print, Refusal, Store};
use reg_file::FileFault;
use reg_op::OpId;
use reg_state::Register;
use reg_texts::Heading;
use std::{fs, str};

/// The first bytes of a text, which are read to tell it from other files.
const START: usize = 256;

/// What was found.
#[derive(Drop)]
pub struct SecondLook {
    head: Option<Vec<u8>>,
    has_namesake: bool,
    looks: Looks,
    is_written: bool,
    shows: bool,
}

impl SecondLook {
    /// Reads the files again. The entry is the one that the fault is about, and so is the word of a list, which is empty if it is about
    /// none.
    pub fn look(
        rt: &HostRuntime,
        named: &CommandFiles<'_>,
        fault: &CliFault,
        word: &str,
    ) -> SecondLook {
        SecondLook {
            head: match taken_by(fault) {
                Some(entry) => heading(rt, named, entry),
                None => None,
            },
            has_namesake: is_of_several_keys(rt, named, fault).unwrap_or(false),
            looks: looks_of(rt, named, fault),
            is_written: match fault {
                CliFault::Out(OutFault::WriteFailed(_)) => named.is_written(rt),
                _ => false,
            },
            shows: match fault {
                CliFault::Refused(Refusal::NoEntry) => is_shown(rt, named, word).unwrap_or(false),
                _ => false,
            },
        }
    }

    /// What was found if only an entry is looked up.
    pub fn entry(rt: &HostRuntime, named: &CommandFiles<'_>, entry: OpId) -> SecondLook {
        SecondLook {
            head: heading(rt, named, entry),
            has_namesake: false,
            looks: Looks::Unknown,
            is_written: false,
            shows: false,
        }
    }

    /// The same, borrowed.
    pub fn found(&self) -> Findings<'_> {
        self.found_for("")
    }

    /// The same for a fault about a word of a list; the word is empty if it is about none.
    pub fn found_for<'a>(&'a self, word: &'a str) -> Findings<'a> {
        Findings {
            head: match &self.head {
                Some(head) => str::from_utf8(head).ok(),
                None => None,
            },
            word,
            has_namesake: self.has_namesake,
            looks: self.looks,
            is_written: self.is_written,
            shows: self.shows,
        }
    }
}

/// The files of the command, with the shelf that the fault is about, and without an output of which nothing is known.
pub fn paths_at<'a>(rt: &HostRuntime, named: &'a CommandFiles<'_>, fault: &CliFault) -> Paths<'a> {
    let mut paths = named.paths();
    match fault {
        CliFault::Shelf(_) => {
            if let SpecialCommand::Status = named.command {
                paths.shelf = unread_shelf(rt, named);
            }
        }
        CliFault::Out(OutFault::WriteFailed(_)) => {
            if named.is_written_in_place(rt) {
                paths.out = "";
            }
        }
        _ => {}
    }
    paths
}

// The entry with the key that a refusal is about.
fn taken_by(fault: &CliFault) -> Option<OpId> {
    match fault {
        CliFault::Refused(Refusal::KeyTaken(entry)) => Some(*entry),
        _ => None,
    }
}

// Whether a word was refused since it is several keys, and not since one key has several texts.
fn is_of_several_keys(
    rt: &HostRuntime,
    named: &CommandFiles<'_>,
    fault: &CliFault,
) -> Option<bool> {
    match fault {
        CliFault::Refused(Refusal::Several(entry)) => {
            let register = read_again(rt, named)?;
            has_namesake(rt.alloc(), &register, *entry)
        }
        _ => None,
    }
}

// Whether the register has an entry of the word that is not retired, without what the office file has.
fn is_shown(rt: &HostRuntime, named: &CommandFiles<'_>, word: &str) -> Option<bool> {
    if word.is_empty() || !named.has_office {
        return None;
    }
    let register = read_again(rt, named)?;
    shows(rt.alloc(), &register, word.as_bytes())
}

// The key, the id and the status of an entry of the register that the command read, if it has this entry and can be read again.
fn heading(rt: &HostRuntime, named: &CommandFiles<'_>, entry: OpId) -> Option<Vec<u8>> {
    let register = read_again(rt, named)?;
    let command = Heading { entry };
    command.text(rt.alloc(), &register).ok()
}

// The register that the command read. None if it cannot be read again, as from a pipe.
fn read_again(rt: &HostRuntime, named: &CommandFiles<'_>) -> Option<Register> {
    if named.shelf.is_empty() {
        in_file(rt, named.register)
    } else {
        on_shelf(rt, named.shelf)
    }
}

// A pipe is not opened again, since that could block forever.
fn in_file(rt: &HostRuntime, path: &str) -> Option<Register> {
    if !fs::metadata(rt, path).ok()?.is_file() {
        return None;
    }
    let mut source = open(rt, 1, path).ok()?;
    let mut store = OfFile {
        source: &mut source,
    };
    store.load(rt.alloc()).ok()
}

fn on_shelf(rt: &HostRuntime, path: &str) -> Option<Register> {
    let mut disk = open_to_read(rt, path).ok()?;
    let mut store = OnShelf { disk: &mut disk };
    store.load(rt.alloc()).ok()
}

// Whether there is a shelf with a register. A pipe is none.
fn is_shelf(rt: &HostRuntime, path: &str) -> bool {
    match fs::metadata(rt, path) {
        Ok(file) if file.is_file() => {}
        _ => return false,
    }
    let Ok(mut disk) = open_to_read(rt, path) else {
        return false;
    };
    OnShelf { disk: &mut disk }.load(rt.alloc()).is_ok()
}

// The first shelf of `status` that cannot be read.
fn unread_shelf<'a>(rt: &HostRuntime, named: &'a CommandFiles<'_>) -> &'a str {
    for file in &named.files {
        if let FileName::Path(path) = file {
            if named.files.len() == 1 || !is_shelf(rt, *path) {
                return *path;
            }
        }
    }
    "a shelf"
}

// What the file is that the fault is about, if it is no file of crsreg.
fn looks_of(rt: &HostRuntime, named: &CommandFiles<'_>, fault: &CliFault) -> Looks {
    let number = match fault {
        CliFault::File {
            number,
            fault: InputFault::BadFile {
                fault: FileFault::Magic,
                ..
            },
        } => *number,
        _ => return Looks::Unknown,
    };
    match named.paths().file(number) {
        FileName::Path(path) => looks_at(rt, path),
        FileName::StandardInput => Looks::Unknown,
    }
}

fn looks_at(rt: &HostRuntime, path: &str) -> Looks {
    if is_shelf(rt, path) {
        return Looks::Shelf;
    }
    if is_office(rt, path).unwrap_or(false) {
        return Looks::Office;
    }
    if is_text(rt, path).unwrap_or(false) {
        return Looks::Text;
    }
    Looks::Unknown
}

fn is_office(rt: &HostRuntime, path: &str) -> Option<bool> {
    let head = FileHead::at(rt, path).ok()??;
    Some(head.is_office())
}

// Whether the file begins like a text: with a keyword, and a delimiter after it.
fn is_text(rt: &HostRuntime, path: &str) -> Option<bool> {
    if !fs::metadata(rt, path).ok()?.is_file() {
        return None;
    }
    let mut source = open(rt, 1, path).ok()?;
    let bytes = read_up_to(rt.alloc(), &mut source, START).ok()?;
    let text = bytes.strip_prefix(b"\xef\xbb\xbf").unwrap_or(&bytes);
    let mut has_keyword = false;
    for byte in text.trim_ascii_start() {
        match *byte {
            b'A'..=b'Z' | b'a'..=b'z' => has_keyword = true,
            b'[' | b'(' => return Some(has_keyword),
            _ => return Some(false),
        }
    }
    Some(false)
}
