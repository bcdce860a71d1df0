//! `compare`: what differs between the texts of entries, and of a file.
use crate::look::tells;
use byte_io::{Source, Writing};
use clap::ArgMatches;
use cli_open::ending::{NotDone, Outcome, compared};
use cli_open::{entry, explains, next_file, open_register, open_text, word};
use reg_commands::ByWord;
use reg_desk::{ImportFault, Unimported};
use reg_engine::{CliFault, Print};
use reg_import::Problem;
use reg_op::OpId;
use reg_texts::{
    Compare, CompareKey, CompareWith, WithFault, run_compared_where_read, run_compared_with,
    run_differs,
};
use std::alloc::Global;
use std::io;
use wkt_explain::{Recorded, explain_within};

/// The message if an id is compared with nothing.
const ALONE: &str = "error: compare needs a key, two entries, or --with FILE; one id is not enough";

/// The message if there are no texts that could be passed over.
const NO_FILE: &str = "error: --keep-going needs --with FILE";

/// `compare`.
pub fn compare(rt: &HostRuntime, matches: &ArgMatches<'_>) -> Outcome<Unimported> {
    if let Some(path) = matches.get_str("with") {
        let answer = compare_with(rt, matches, path);
        return compared(rt.alloc(), tells(matches), answer);
    }
    if matches.get_flag("keep-going") {
        return Err(NotDone::Misuse(NO_FILE));
    }
    if matches.get_str("OTHER").is_none()
        && OpId::parse(word(matches, "ENTRY").as_bytes()).is_some()
    {
        return Err(NotDone::Misuse(ALONE));
    }
    let answer = with_plain_fault(rt.alloc(), compare_texts(rt, matches));
    compared(rt.alloc(), tells(matches), answer)
}

/// An answer, or a fault without an explanation.
pub fn with_plain_fault<A>(alloc: Global, answer: Result<A, CliFault>) -> Result<A, Unimported> {
    match answer {
        Ok(answer) => Ok(answer),
        Err(fault) => Err(Unimported::plain(alloc, fault)),
    }
}

// Two entries, or those of a key.
fn compare_texts(rt: &HostRuntime, matches: &ArgMatches<'_>) -> Result<bool, CliFault> {
    let one = word(matches, "ENTRY");
    let Some(other) = matches.get_str("OTHER") else {
        let key = one.as_bytes();
        return differs_of(rt, matches, &CompareKey { key });
    };
    if matches.get_flag("keys") {
        let command = CompareWith {
            word: other.as_bytes(),
        };
        let word = one.as_bytes();
        return differs_of(
            rt,
            matches,
            &ByWord {
                word,
                command: &command,
            },
        );
    }
    match entry(rt, matches, one) {
        Ok(one) => compared_to(rt, matches, one, other),
        Err(fault) => Err(fault),
    }
}

// An entry, and the one with this id.
fn compared_to(
    rt: &HostRuntime,
    matches: &ArgMatches<'_>,
    one: OpId,
    other: &str,
) -> Result<bool, CliFault> {
    match entry(rt, matches, other) {
        Ok(other) => differs_of(rt, matches, &Compare { one, other }),
        Err(fault) => Err(fault),
    }
}

// Opens the register, and prints what differs. Answers whether anything does.
fn differs_of<C: Print>(
    rt: &HostRuntime,
    matches: &ArgMatches<'_>,
    command: &C,
) -> Result<bool, CliFault> {
    let mut sink = Writing::new(io::writer(rt));
    let register = open_register(rt, rt.alloc(), matches, "REG", &None)?;
    run_differs(rt.alloc(), &mut register.reading(), command, &mut sink)
}

// `compare --with`. The file is opened after the register, and read after it.
fn compare_with(
    rt: &HostRuntime,
    matches: &ArgMatches<'_>,
    path: &str,
) -> Result<bool, Unimported> {
    let register = match open_register(rt, rt.alloc(), matches, "REG", &None) {
        Ok(register) => register,
        Err(fault) => return Err(Unimported::plain(rt.alloc(), fault)),
    };
    let mut text = match open_text(rt, next_file(&register), path) {
        Ok(file) => Recorded::new(rt.alloc(), file),
        Err(fault) => return Err(Unimported::plain(rt.alloc(), fault)),
    };
    let mut sink = Writing::new(io::writer(rt));
    let mut store = register.reading();
    let name = path.as_bytes();
    if matches.get_flag("keep-going") {
        return match run_compared_where_read(rt.alloc(), &mut store, name, &mut text, &mut sink) {
            Ok(part) => match part.left {
                Some(why) => Err(uncompared(rt.alloc(), matches, path, &text, why)),
                None => Ok(part.differs),
            },
            Err(fault) => Err(Unimported::plain(rt.alloc(), fault)),
        };
    }
    match run_compared_with(rt.alloc(), &mut store, name, &mut text, &mut sink) {
        Ok(differs) => Ok(differs),
        Err(why) => Err(uncompared(rt.alloc(), matches, path, &text, why)),
    }
}

// A text that cannot be read is refused as by `import`.
fn uncompared<S: Source>(
    alloc: Global,
    matches: &ArgMatches<'_>,
    path: &str,
    text: &Recorded<S>,
    why: WithFault,
) -> Unimported {
    match why {
        WithFault::Cli(fault) => Unimported::plain(alloc, fault),
        WithFault::Refused {
            fault,
            at,
            place,
            len,
            file,
        } => {
            let end = place.saturating_add(len);
            let bytes = text.bytes().unwrap_or(&[]);
            let notes = if explains(matches) {
                explain_within(alloc, path, bytes, place, end, fault)
            } else {
                Ok(Vec::new(alloc))
            };
            let Ok(notes) = notes else {
                return Unimported::plain(alloc, CliFault::Memory);
            };
            let fault = ImportFault::Refused {
                problem: Problem::Unread(fault),
                place: at,
                file,
            };
            Unimported { fault, notes }
        }
    }
}
