//! Prints the sentence of a fault, and explanations, below the line of the fault.
use crate::naming::{SecondLook, paths_at};
use crate::paths::CommandFiles;
use cli_sentences::{FileName, Sentence, Shown, ShownLines};
use csv_table::offices::{Name, named};
use reg_engine::CliFault;
use std::alloc::{AllocError, Global};
use std::{fmt, str};

/// Prints the sentence of a fault to standard error, below its line.
pub fn explain(rt: &HostRuntime, fault: CliFault, named: &Option<CommandFiles<'_>>) {
    explain_word(rt, fault, "", named);
}

/// The same for a fault about a word of a list; the word is empty if it is about none.
pub fn explain_word(
    rt: &HostRuntime,
    fault: CliFault,
    word: &str,
    named: &Option<CommandFiles<'_>>,
) {
    if let Some(named) = named {
        explain_in(rt, fault, word, named);
    }
}

fn explain_in(rt: &HostRuntime, fault: CliFault, word: &str, named: &CommandFiles<'_>) {
    let second = SecondLook::look(rt, named, &fault, word);
    let sentence = Sentence {
        fault,
        found: second.found_for(word),
        paths: paths_at(rt, named, &fault),
    };
    say(rt, &sentence, named);
}

/// Prints a sentence to standard error, with the names of offices in the place of their UUIDs. Hints keep the UUIDs, since a command
/// line takes no names.
pub fn say<D: fmt::Display>(rt: &HostRuntime, sentence: &D, named: &CommandFiles<'_>) {
    if !named.names.is_empty() {
        if let Ok(text) = format!(in rt.alloc(); "{sentence}") {
            return say_lines(rt, text.as_str(), &named.names);
        }
    }
    let _ = eprint!(rt; "{sentence}");
}

fn say_lines(rt: &HostRuntime, text: &str, names: &[Name]) {
    for line in text.lines() {
        match shown_line(rt.alloc(), line, names) {
            Ok(line) => {
                let line = ShownLines(line.as_str());
                let _ = eprintln!(rt; "{line}");
            }
            Err(_) => {
                let _ = eprintln!(rt; "{line}");
            }
        }
    }
}

fn shown_line(alloc: Global, line: &str, names: &[Name]) -> Result<String, AllocError> {
    if line.starts_with("hint: ") {
        return String::from_str(alloc, line);
    }
    let bytes = named(alloc, false, names, line.as_bytes())?;
    String::from_utf8_lossy(alloc, &bytes)
}

/// Prints explanations of texts to standard error, below the line of the fault. They are UTF-8.
pub fn add(rt: &HostRuntime, notes: &[u8], named: &Option<CommandFiles<'_>>) {
    let Ok(notes) = str::from_utf8(notes) else {
        return;
    };
    if let Some(named) = named {
        if has_long_names(named) {
            if let Ok(notes) = with_shown_names(rt.alloc(), notes, named) {
                print_lines(rt, notes.as_str());
                return;
            }
        }
    }
    print_lines(rt, notes);
}

/// Prints lines to standard error, without characters that a terminal would act on.
pub fn print_lines(rt: &HostRuntime, lines: &str) {
    let lines = ShownLines(lines);
    let _ = eprint!(rt; "{lines}");
}

// Whether a name has several lines.
fn has_long_names(named: &CommandFiles<'_>) -> bool {
    for file in &named.files {
        if let FileName::Path(path) = file {
            if path.contains('\n') {
                return true;
            }
        }
    }
    false
}

// The explanations, which name files as they are. A name of several lines is shown as one, so that it does not look like an explanation.
fn with_shown_names(
    alloc: Global,
    notes: &str,
    named: &CommandFiles<'_>,
) -> Result<String, AllocError> {
    let mut text = String::from_str(alloc, notes)?;
    for file in &named.files {
        if let FileName::Path(path) = file {
            if path.contains('\n') {
                let shown = Shown(*path);
                let shown = format!(in alloc; "{shown}:")?;
                let name = format!(in alloc; "{path}:")?;
                text = text.replace(alloc, name.as_str(), shown.as_str())?;
            }
        }
    }
    Ok(text)
}
