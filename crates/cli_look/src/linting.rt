//! `lint`: what an expert would ask about the entries of a register, or about texts.
use crate::comparing::with_plain_fault;
use crate::look::tells;
use byte_io::{Reading, Source, Writing};
use clap::ArgMatches;
use cli_open::ending::{NotDone, Outcome, compared};
use cli_open::{
    Rows, answered, explains, is_twice, next_file, open, open_register, open_text, word,
};
use reg_desk::{ImportFault, Unimported};
use reg_engine::CliFault;
use reg_import::Problem;
use reg_lint::engine::{TextsFault, read_texts, run_lint, run_lint_kept, usual_of};
use reg_lint::{ANY_RULES, AnyRule, KeptSubject};
use reg_op::Status;
use std::alloc::{AllocError, Global};
use std::io::{self, Write};
use wkt_explain::{Recorded, explain_within};

/// The message if a rule is named that does not exist.
const NO_RULE: &str =
    "error: --rule takes names of rules with commas between; crsreg help lint lists them";

/// The message if standard input is named twice.
const TWICE: &str = "error: standard input, -, is named twice";

/// `lint`.
pub fn lint(rt: &HostRuntime, matches: &ArgMatches<'_>) -> Outcome<Unimported> {
    let rules = match rules_of(rt.alloc(), matches) {
        Ok(Some(rules)) => rules,
        Ok(None) => return Err(NotDone::Misuse(NO_RULE)),
        Err(_) => {
            let why = Unimported::plain(rt.alloc(), CliFault::Memory);
            return Err(NotDone::Fault(why));
        }
    };
    let paths = matches.get_strs("texts").unwrap_or(&[]);
    if is_twice(paths) {
        return Err(NotDone::Misuse(TWICE));
    }
    let answer = lint_all(rt, matches, &rules, paths);
    compared(rt.alloc(), tells(matches), answer)
}

// The texts of these files, or the register if there are none. Answers whether there are rows.
fn lint_all(
    rt: &HostRuntime,
    matches: &ArgMatches<'_>,
    rules: &[AnyRule],
    paths: &[&str],
) -> Result<bool, Unimported> {
    if paths.is_empty() {
        return with_plain_fault(rt.alloc(), lint_register(rt, matches, rules));
    }
    let kept = read_all(rt, matches, paths)?;
    let answer = lint_subjects(rt, matches, rules, paths.len(), &kept);
    with_plain_fault(rt.alloc(), answer)
}

// The rules of the option, or those that need not be named; each once, in the order of all rules. None if a word is the name of no rule.
fn rules_of(alloc: Global, matches: &ArgMatches<'_>) -> Result<Option<Vec<AnyRule>>, AllocError> {
    let Some(list) = matches.get_str("rule") else {
        let usual = usual_of(alloc, &ANY_RULES)?;
        return Ok(Some(usual));
    };
    let mut named = Vec::new(alloc);
    for word in list.as_bytes().split(|byte| *byte == b',') {
        let Some(rule) = AnyRule::of_name(word) else {
            return Ok(None);
        };
        named.push(rule)?;
    }
    let mut chosen = Vec::new(alloc);
    for rule in ANY_RULES {
        if named.contains(&rule) {
            chosen.push(rule)?;
        }
    }
    Ok(Some(chosen))
}

// Prints the rows of the register. Answers whether there are any.
fn lint_register(
    rt: &HostRuntime,
    matches: &ArgMatches<'_>,
    rules: &[AnyRule],
) -> Result<bool, CliFault> {
    let mut sink = Rows::sink(rt, matches, io::writer(rt));
    let answer = lint_register_to(rt, matches, rules, &mut sink);
    match answered(rt.alloc(), sink, answer) {
        Ok(answer) => answer,
        Err(fault) => Err(fault),
    }
}

// The rows that were looked at before are in a file that is opened after the register, and read after it.
fn lint_register_to<W: Write>(
    rt: &HostRuntime,
    matches: &ArgMatches<'_>,
    rules: &[AnyRule],
    sink: &mut Writing<W>,
) -> Result<bool, CliFault> {
    let register = open_register(rt, rt.alloc(), matches, "REG", &None)?;
    let status = status_of(word(matches, "status"));
    let Some(path) = matches.get_str("known") else {
        let mut none = Reading::new(b"".as_slice());
        return run_lint(
            rt.alloc(),
            &mut register.reading(),
            rules,
            status,
            &mut none,
            sink,
        );
    };
    let mut known = open(rt, next_file(&register), path)?;
    run_lint(
        rt.alloc(),
        &mut register.reading(),
        rules,
        status,
        &mut known,
        sink,
    )
}

// The status of the argument, or none for all that are not retired.
fn status_of(word: &str) -> Option<Status> {
    match word {
        "valid" => Some(Status::Valid),
        "superseded" => Some(Status::Superseded),
        _ => None,
    }
}

// Prints the rows of the texts of so many files.
fn lint_subjects(
    rt: &HostRuntime,
    matches: &ArgMatches<'_>,
    rules: &[AnyRule],
    files: usize,
    kept: &[KeptSubject],
) -> Result<bool, CliFault> {
    let mut sink = Rows::sink(rt, matches, io::writer(rt));
    let number = files.saturating_add(1);
    let answer = lint_subjects_to(rt, matches, rules, number, kept, &mut sink);
    match answered(rt.alloc(), sink, answer) {
        Ok(answer) => answer,
        Err(fault) => Err(fault),
    }
}

fn lint_subjects_to<W: Write>(
    rt: &HostRuntime,
    matches: &ArgMatches<'_>,
    rules: &[AnyRule],
    number: usize,
    kept: &[KeptSubject],
    sink: &mut Writing<W>,
) -> Result<bool, CliFault> {
    let Some(path) = matches.get_str("known") else {
        let mut none = Reading::new(b"".as_slice());
        return run_lint_kept(rt.alloc(), kept, rules, number, &mut none, sink);
    };
    let mut known = open(rt, number, path)?;
    run_lint_kept(rt.alloc(), kept, rules, number, &mut known, sink)
}

// The reference systems of the texts. The files are opened and read one after another.
fn read_all(
    rt: &HostRuntime,
    matches: &ArgMatches<'_>,
    paths: &[&str],
) -> Result<Vec<KeptSubject>, Unimported> {
    let mut kept = Vec::new(rt.alloc());
    for (i, path) in paths.iter().enumerate() {
        let number = i.saturating_add(1);
        let file = match open_text(rt, number, *path) {
            Ok(file) => file,
            Err(fault) => return Err(Unimported::plain(rt.alloc(), fault)),
        };
        let mut text = Recorded::new(rt.alloc(), file);
        match read_texts(rt.alloc(), number, path.as_bytes(), &mut text, &mut kept) {
            Ok(()) => {}
            Err(why) => return Err(unread(rt.alloc(), matches, *path, &text, why)),
        }
    }
    Ok(kept)
}

// A text that cannot be read is refused as by `import`.
fn unread<S: Source>(
    alloc: Global,
    matches: &ArgMatches<'_>,
    path: &str,
    text: &Recorded<S>,
    why: TextsFault,
) -> Unimported {
    match why {
        TextsFault::Cli(fault) => Unimported::plain(alloc, fault),
        TextsFault::Refused {
            fault,
            place,
            len,
            file,
        } => {
            let end = place.saturating_add(len);
            let bytes = text.bytes().unwrap_or(&[]);
            let notes = if explains(matches) {
                explain_within(alloc, path, bytes, place, end, fault)
            } else {
                Ok(Vec::new(alloc))
            };
            let Ok(notes) = notes else {
                return Unimported::plain(alloc, CliFault::Memory);
            };
            let fault = ImportFault::Refused {
                problem: Problem::Unread(fault),
                place: place.saturating_add(fault.place().unwrap_or(0)),
                file,
            };
            Unimported { fault, notes }
        }
    }
}
