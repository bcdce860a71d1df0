//! Runs a command: from the command line to an engine, and from its result to the exit status.
use crate::environment::Environment;
use crate::overwriting::overwritten;
use crate::shells::completions;
use crate::telling::StandardError;
use clap::error::ErrorKind;
use clap::{ArgMatches, Error};
use cli_change::{misnamed, office, retire, supersede};
use cli_exchange::{downgrade, merge, new, piece, seen, shelf, take, unshelf};
use cli_faults::{CommandFiles, print_lines};
use cli_import::{enter, import, settle};
use cli_look::handing::{export, graph, ops, page, show, wkt};
use cli_look::{check, compare, diff, find, lint, log, offices, report, status as figures, texts};
use cli_open::ending::{NotDone, Outcome, report as told, report_answer as told_plainly};
use cli_open::{MISUSE, complain, explains, failed, is_table, names, print};
use cli_words::{CommandName, command_line, overview};
use reg_engine::{CliFault, OutFault};
use std::alloc::AllocError;
use std::{env, io};

const NO_TEXT: &str = "error: a word of the command line is not UTF-8";

const NO_KEYS: &str =
    "error: settle takes ids only: crsreg find REG KEY --status live --ids prints those of a key";

const NO_COMMAND: &str = "error: there is no such command";

/// Runs the command of the process, and returns the exit status.
pub fn run(rt: &HostRuntime) -> u8 {
    let args = match env::args(rt) {
        Ok(args) => args,
        Err(error) if error.kind() == io::ErrorKind::OutOfMemory => {
            return failed(rt, &CliFault::Memory);
        }
        Err(_) => return complain(rt, &NO_TEXT, MISUSE),
    };
    match args.collect::<Vec<String>>(rt.alloc()) {
        Ok(words) => answer(rt, words.as_slice()),
        Err(_) => failed(rt, &CliFault::Memory),
    }
}

/// Runs the command with these arguments, the first of which is the program's name, and returns the exit status.
pub fn answer(rt: &HostRuntime, words: &[String]) -> u8 {
    let environment = match Environment::read(rt) {
        Ok(environment) => environment,
        Err(status) => return status,
    };
    let Ok(help) = overview(rt.alloc()) else {
        return failed(rt, &CliFault::Memory);
    };
    let Ok(command) = command_line(rt.alloc(), &environment.defaults(), help.as_str()) else {
        return failed(rt, &CliFault::Memory);
    };
    match command.try_get_matches_from(words) {
        Ok(matches) => perform_explained(rt, &matches),
        Err(error) if error.kind() == ErrorKind::OutOfMemory => failed(rt, &CliFault::Memory),
        Err(error) if error.use_stderr() => misused(rt, words, &error),
        Err(help) => match print(rt, &help) {
            Ok(()) => 0,
            Err(fault) => failed(rt, &fault),
        },
    }
}

// Prints what is wrong with the command line. Its words are shown without characters that a terminal would act on.
fn misused(rt: &HostRuntime, words: &[String], error: &Error) -> u8 {
    match format!(in rt.alloc(); "{error}") {
        Ok(text) if is_key_to_settle(words, text.as_str()) => {
            return complain(rt, &NO_KEYS, MISUSE);
        }
        Ok(text) => print_lines(rt, text.as_str()),
        Err(_) => {
            let _ = error.print(rt);
        }
    }
    MISUSE
}

// Whether clap rejects `-k` because the command is `settle`.
fn is_key_to_settle(words: &[String], error: &str) -> bool {
    let Some(name) = words.get(1) else {
        return false;
    };
    name.as_str() == "settle"
        && (error.starts_with("error: unexpected argument '-k'")
            || error.starts_with("error: unexpected argument '--keys'"))
}

// Runs the command. The names of its files, which explain a refusal, are found first: afterwards memory may be out.
fn perform_explained(rt: &HostRuntime, matches: &ArgMatches<'_>) -> u8 {
    // clap rejects unknown commands.
    let Some((word, inner)) = matches.subcommand() else {
        return complain(rt, &NO_COMMAND, MISUSE);
    };
    let Some(name) = CommandName::named(word) else {
        return complain(rt, &NO_COMMAND, MISUSE);
    };
    if is_table(inner) || is_named(name) {
        if let Err(problem) = names(rt, inner) {
            return complain(rt, &problem, problem.status());
        }
    }
    let Ok(named) = named(rt, name, inner) else {
        return failed(rt, &CliFault::Memory);
    };
    let status = performed(rt, name, inner, &named);
    drop(named);
    match status {
        Some(status) => status,
        None => complain(rt, &NO_COMMAND, MISUSE),
    }
}

fn performed<'a>(
    rt: &HostRuntime,
    name: CommandName,
    inner: &ArgMatches<'a>,
    named: &Option<CommandFiles<'a>>,
) -> Option<u8> {
    let mut to = StandardError {
        rt,
        matches: inner,
        named,
    };
    perform(rt, name, inner, &mut to)
}

// Whether the command shows names of offices, also if it prints no table.
fn is_named(name: CommandName) -> bool {
    match name {
        CommandName::Graph | CommandName::Page => true,
        _ => false,
    }
}

// The files of the command, if a refusal is to be explained.
fn named<'a>(
    rt: &HostRuntime,
    name: CommandName,
    inner: &ArgMatches<'a>,
) -> Result<Option<CommandFiles<'a>>, AllocError> {
    if !explains(inner) {
        return Ok(None);
    }
    let named = CommandFiles::of(rt, name, inner)?;
    Ok(Some(named))
}

// Runs the command, and reports how it ended, if clap passed only words that it knows. Returns the exit status.
fn perform(
    rt: &HostRuntime,
    name: CommandName,
    inner: &ArgMatches<'_>,
    to: &mut StandardError<'_, '_>,
) -> Option<u8> {
    if inner.get_str("office").is_some() {
        if let Some(outcome) = mistaken(rt, inner) {
            return Some(told(to, outcome));
        }
    }
    if let Some(outcome) = destructive(rt, name, inner) {
        return Some(told(to, outcome));
    }
    let status = match name {
        CommandName::Check => told(to, check(rt, inner)),
        CommandName::New => told_plainly(to, new(rt, inner)),
        CommandName::Office => told_plainly(to, office(rt, inner)),
        CommandName::Enter => told(to, enter(rt, inner)),
        CommandName::Import => told(to, import(rt, inner)),
        CommandName::Supersede => told(to, supersede(rt, inner)),
        CommandName::Retire => told(to, retire(rt, inner)),
        CommandName::Settle => told(to, settle(rt, inner)),
        CommandName::Find => told(to, find(rt, inner)),
        CommandName::Lint => told(to, lint(rt, inner)),
        CommandName::Show => told_plainly(to, show(rt, inner)),
        CommandName::Wkt => told_plainly(to, wkt(rt, inner)),
        CommandName::Texts => told_plainly(to, texts(rt, inner)),
        CommandName::Compare => told(to, compare(rt, inner)),
        CommandName::Export => told(to, export(rt, inner)),
        CommandName::Graph => told_plainly(to, graph(rt, inner)),
        CommandName::Ops => told_plainly(to, ops(rt, inner)),
        CommandName::Log => told_plainly(to, log(rt, inner)),
        CommandName::Report => told_plainly(to, report(rt, inner)?),
        CommandName::Status => told_plainly(to, figures(rt, inner)),
        CommandName::Offices => told_plainly(to, offices(rt, inner)),
        CommandName::Page => told_plainly(to, page(rt, inner)),
        CommandName::Diff => told(to, diff(rt, inner)),
        CommandName::Take => told(to, take(rt, inner)),
        CommandName::Merge => told_plainly(to, merge(rt, inner)),
        CommandName::Seen => told_plainly(to, seen(rt, inner)),
        CommandName::Piece => told_plainly(to, piece(rt, inner)),
        CommandName::Downgrade => told_plainly(to, downgrade(rt, inner)),
        CommandName::Shelf => told_plainly(to, shelf(rt, inner)),
        CommandName::Unshelf => told_plainly(to, unshelf(rt, inner)),
        CommandName::Completions => told_plainly(to, completions(rt, inner)?),
    };
    Some(status)
}

// How a command with an office file ends that is not run, since its files cannot go together.
fn mistaken(rt: &HostRuntime, inner: &ArgMatches<'_>) -> Option<Outcome<CliFault>> {
    match misnamed(rt, rt.alloc(), inner) {
        Ok(None) => None,
        Ok(Some(line)) => Some(Err(NotDone::Misuse(line))),
        Err(fault) => Some(Err(NotDone::Fault(fault))),
    }
}

// How a command ends that is not run, since it would destroy what OUT is, or since nobody can tell what that is.
fn destructive(
    rt: &HostRuntime,
    name: CommandName,
    inner: &ArgMatches<'_>,
) -> Option<Outcome<CliFault>> {
    match overwritten(rt, name, inner) {
        Ok(None) => None,
        Ok(Some(line)) => Some(Err(NotDone::Misuse(line))),
        Err(place) => Some(Err(NotDone::Fault(CliFault::Out(OutFault::ReadFailed(place))))),
    }
}
