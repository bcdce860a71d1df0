//! Commands that print something of a text, of a register, or of several registers.

ghost use Rattle.cli_open.specs.Outcome.{IsComparedBy};
ghost use Rattle.reg_desk.specs.declared.comparison.Comparison.{Comparison};

use byte_disk::FileDisk;
use byte_io::{LateFile, Reading, Source, Writing};
use byte_out::Lockable;
use clap::ArgMatches;
use cli_faults::{CommandFiles, say};
use cli_open::ending::{NotDone, Outcome, difference, ended};
use cli_open::{
    Rows, STANDARD_INPUT, answered, entries, explains, next_file, open, open_all, open_register,
    open_to_read, print_of, push_words, wanted, word,
};
use crs_value::search::{Kind, Point};
use reg_commands::run_check;
use reg_desk::{
    Comparison, Explained, Find, FindIds, LateAt, LogAll, LogByWords, LogOf, Offices, OpenedDisk,
    ShelfAt, run_check_explained, run_diff, run_status,
};
use reg_engine::{CliFault, ShelfProblem};
use reg_news::gained::hidden_in;
use reg_news::{OfCodes, news_of};
use reg_query::Query;
use reg_texts::Texts;
use std::alloc::{AllocError, Global};
use std::io::{self, Write};
use std::rt::Files;
use wkt_explain::Recorded;

/// The message if a word to search for is empty, as in a script with a variable that is not set: it would find every entry.
const NO_WORD: &str = "error: WORD, or the value of an option, is empty: is a variable not set?";

const NO_POINT: &str = "error: --at takes a latitude and a longitude, as 52.5,13.4";

/// `check`.
pub fn check(rt: &HostRuntime, matches: &ArgMatches<'_>) -> Outcome<Explained> {
    ended(rt.alloc(), checked(rt, matches))
}

fn checked(rt: &HostRuntime, matches: &ArgMatches<'_>) -> Result<(), Explained> {
    match matches.get_str("TEXT") {
        None => check_from(rt, matches, STANDARD_INPUT, Reading::new(rt.reader())),
        Some(path) => match open(rt, 1, path) {
            Ok(file) => check_from(rt, matches, path, file),
            Err(fault) => Err(unexplained(rt.alloc(), fault)),
        },
    }
}

// A fault without an explanation of a text.
fn unexplained(alloc: Global, fault: CliFault) -> Explained {
    Explained {
        fault,
        note: Vec::new(alloc),
    }
}

// Checks the text of the source with this name.
fn check_from<S: Source + Drop>(
    rt: &HostRuntime,
    matches: &ArgMatches<'_>,
    name: &str,
    source: S,
) -> Result<(), Explained> {
    let mut text = Recorded::new(rt.alloc(), source);
    let mut sink = Writing::new(io::writer(rt));
    if explains(matches) {
        return run_check_explained(rt.alloc(), name, &mut text, &mut sink);
    }
    match run_check(rt.alloc(), &mut text, &mut sink) {
        Ok(()) => Ok(()),
        Err(fault) => Err(unexplained(rt.alloc(), fault)),
    }
}

/// `log`.
pub fn log(rt: &HostRuntime, matches: &ArgMatches<'_>) -> Result<(), CliFault> {
    if !matches.contains_id("ENTRY") {
        return print_of(rt, matches, &LogAll);
    }
    let mut given = Vec::new(rt.alloc());
    push_words(&mut given, matches.get_strs("ENTRY").unwrap_or(&[]))?;
    if matches.get_flag("keys") {
        return print_of(rt, matches, &LogByWords { words: &given });
    }
    let entries = entries(rt, matches, &given)?;
    print_of(rt, matches, &LogOf { entries: &entries })
}

/// `texts`.
pub fn texts(rt: &HostRuntime, matches: &ArgMatches<'_>) -> Result<(), CliFault> {
    print_of(rt, matches, &Texts)
}

// The query of the options, if the point is valid.
fn query<'a>(matches: &ArgMatches<'a>) -> Option<Query<'a>> {
    let at = match matches.get_str("at") {
        Some(word) => Some(Point::read(word.as_bytes())?),
        None => None,
    };
    Some(Query {
        word: matches.get_str("WORD"),
        key: matches.get_str("key"),
        authority: matches.get_str("authority"),
        code: matches.get_str("code"),
        name: matches.get_str("name"),
        area: matches.get_str("area"),
        at,
        kind: kind_of(word(matches, "kind")),
        text: matches.get_str("text"),
        status: wanted(word(matches, "status")),
    })
}

// The kind of the argument. clap rejects other words.
fn kind_of(word: &str) -> Option<Kind> {
    match word {
        "geographic" => Some(Kind::Geographic),
        "geodetic" => Some(Kind::Geodetic),
        "projected" => Some(Kind::Projected),
        "vertical" => Some(Kind::Vertical),
        "compound" => Some(Kind::Compound),
        _ => None,
    }
}

// Whether a word to search for is empty.
fn has_empty(matches: &ArgMatches<'_>) -> bool {
    for argument in ["WORD", "key", "authority", "code", "name", "area", "text"] {
        if let Some("") = matches.get_str(argument) {
            return true;
        }
    }
    false
}

/// `find`.
pub fn find(rt: &HostRuntime, matches: &ArgMatches<'_>) -> Outcome<CliFault> {
    if has_empty(matches) {
        return Err(NotDone::Misuse(NO_WORD));
    }
    let Some(query) = query(matches) else {
        return Err(NotDone::Misuse(NO_POINT));
    };
    if matches.get_flag("ids") {
        let answer = print_of(rt, matches, &FindIds { query: &query });
        return ended(rt.alloc(), answer);
    }
    let answer = print_of(rt, matches, &Find { query: &query });
    ended(rt.alloc(), answer)
}

/// `offices`.
pub fn offices(rt: &HostRuntime, matches: &ArgMatches<'_>) -> Result<(), CliFault> {
    print_of(rt, matches, &Offices)
}

/// `status`. A file or a shelf that does not open has a line, too.
pub fn status(rt: &HostRuntime, matches: &ArgMatches<'_>) -> Result<(), CliFault> {
    let paths = matches.get_strs("FILE").unwrap_or(&[]);
    let Ok(names) = names_of(rt.alloc(), paths) else {
        return Err(CliFault::Memory);
    };
    let mut sink = Rows::sink(rt, matches, io::writer(rt));
    let answer = status_to(rt, matches, paths, &names, &mut sink);
    match answered(rt.alloc(), sink, answer) {
        Ok(answer) => answer,
        Err(fault) => Err(fault),
    }
}

fn status_to<W: Write>(
    rt: &HostRuntime,
    matches: &ArgMatches<'_>,
    paths: &[&str],
    names: &[&[u8]],
    sink: &mut Writing<W>,
) -> Result<(), CliFault> {
    let settled = matches.get_flag("settled");
    if matches.get_flag("shelf") {
        let Ok(mut shelves) = opened_shelves(rt, rt.alloc(), paths) else {
            return Err(CliFault::Memory);
        };
        return run_status(rt.alloc(), names, &mut shelves, settled, sink);
    }
    let Ok(mut files) = files_at(rt, rt.alloc(), paths) else {
        return Err(CliFault::Memory);
    };
    run_status(rt.alloc(), names, &mut files, settled, sink)
}

// The names of the files.
fn names_of<'a>(alloc: Global, paths: &[&'a str]) -> Result<Vec<&'a [u8]>, AllocError> {
    let mut names = Vec::new(alloc);
    for path in paths {
        names.push(path.as_bytes())?;
    }
    Ok(names)
}

// The files, which are opened one after another.
fn files_at<'a, R: Files>(
    rt: &'a R,
    alloc: Global,
    paths: &[&'a str],
) -> Result<Vec<LateAt<LateFile<'a, R>>>, AllocError> {
    let mut files = Vec::new(alloc);
    for path in paths {
        let file = LateFile::new(rt, *path);
        files.push(LateAt { file })?;
    }
    Ok(files)
}

// Opens all shelves that can be opened, unless another command has one.
fn opened_shelves<R: Files>(
    rt: &R,
    alloc: Global,
    paths: &[&str],
) -> Result<Vec<ShelfAt<FileDisk<R::File>>>, AllocError>
where
    R::File: Lockable,
{
    let mut shelves = Vec::new(alloc);
    for path in paths {
        let shelf = match open_to_read(rt, *path) {
            Ok(disk) => OpenedDisk::Source(disk),
            Err(CliFault::Shelf(problem)) => OpenedDisk::Unopened(problem),
            Err(_) => OpenedDisk::Unopened(ShelfProblem::NotOpened),
        };
        shelves.push(ShelfAt { opened: shelf })?;
    }
    Ok(shelves)
}

/// `diff`. It brings what it compared.
pub fn diff(rt: &HostRuntime, matches: &ArgMatches<'_>) -> Outcome<CliFault, CliFault, Comparison> {
    outcome_of(rt.alloc(), tells(matches), merged(rt, matches))
}

// The outcome of a comparison. The exit status shows a difference if it is asked to.
fn outcome_of(
    alloc: Global,
    asked: bool,
    found: Result<Comparison, CliFault>,
) -> Outcome<CliFault, CliFault, Comparison>
    ensures { IsComparedBy (λ (c : Comparison). c.differ) asked found result }
{
    match found {
        Ok(found) => {
            let differs = found.differ;
            Ok(difference(alloc, asked, differs, found))
        }
        Err(fault) => Err(NotDone::Fault(fault)),
    }
}

/// Says how codes stand otherwise in the newer register, what no row shows of it, and what cannot be undone of it, if sentences are
/// asked for and there is memory for them.
pub fn say_hidden(rt: &HostRuntime, found: &Comparison, named: &Option<CommandFiles<'_>>) {
    let Some(named) = named else {
        return;
    };
    if let Ok(news) = news_of(rt.alloc(), &found.before, &found.after) {
        let codes = OfCodes {
            news: &news,
            superseded: true,
        };
        say(rt, &codes, named);
    }
    if let Ok(hidden) = hidden_in(rt.alloc(), &found.before, &found.after) {
        say(rt, &hidden, named);
    }
}

/// Whether the exit status shows that something differs.
pub fn tells(matches: &ArgMatches<'_>) -> bool {
    matches.get_flag("exit-code")
}

fn merged(rt: &HostRuntime, matches: &ArgMatches<'_>) -> Result<Comparison, CliFault> {
    let mut sink = Rows::sink(rt, matches, io::writer(rt));
    let answer = merged_to(rt, matches, &mut sink);
    match answered(rt.alloc(), sink, answer) {
        Ok(answer) => answer,
        Err(fault) => Err(fault),
    }
}

// A shelf is compared with the result of merging the files into it.
fn merged_to<W: Write>(
    rt: &HostRuntime,
    matches: &ArgMatches<'_>,
    sink: &mut Writing<W>,
) -> Result<Comparison, CliFault> {
    let register = open_register(rt, rt.alloc(), matches, "OLD", &None)?;
    let paths = matches.get_strs("NEW").unwrap_or(&[]);
    let mut others = open_all(rt, rt.alloc(), next_file(&register), paths)?;
    let joins = matches.get_flag("shelf");
    run_diff(
        rt.alloc(),
        &mut register.reading(),
        &mut others,
        joins,
        sink,
    )
}
