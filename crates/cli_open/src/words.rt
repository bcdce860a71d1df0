//! The arguments of a command: replicas, entries, files.

ghost use Rattle.std.specs.Prelude.{◌≡◌, ◌↔◌, ◌<◌, Some, None, IfOk, IfErr, IsTrue};
ghost use Rattle.std.specs.List.{count_by};
ghost use Rattle.byte_io.specs.Device.{target_of};
ghost use Rattle.byte_out.specs.Place.{untold};
ghost use Rattle.uuid.specs.Text.{parsed};
ghost use Rattle.cli_open.specs.Used.{used_office};
ghost use Rattle.cli_open.specs.Words.{is_dash};

use byte_io::{InFault, Reading, read_up_to};
use byte_out::{FileId, Place};
use byte_place::OutPlace;
use clap::ArgMatches;
use clap::parser::ValueSource;
use reg_engine::{CliFault, InputFault, Refusal};
use reg_file::MAX_FILE;
use reg_query::Wanted;
use std::alloc::{AllocError, Global};
use std::fs;
use std::rt::Files;
use uuid::Uuid;

/// The name of standard input on the command line.
pub const STANDARD_INPUT: &str = "-";

pub const STANDARD_INPUT_PATH: &str = "/dev/stdin";

pub(crate) const STANDARD_OUTPUT_PATH: &str = "/dev/stdout";

/// An argument, or the empty text if it is absent, such as a note.
pub fn word<'a>(matches: &ArgMatches<'a>, name: &str) -> &'a str {
    matches.get_str(name).unwrap_or("")
}

/// Whether the command explains refusals.
pub fn explains(matches: &ArgMatches<'_>) -> bool {
    matches.get_flag("explain") && !matches.get_flag("no-explain")
}

/// The office file of a command, if it has one. The command line comes before the environment, where an office file comes before a
/// UUID.
pub fn office_file<'a>(matches: &ArgMatches<'a>) -> Option<&'a str> {
    used_office(matches.value_source("as"), matches.get_str("office"))
}

// The office file that is named, unless the words of the command line have a UUID.
fn used_office(uuid: Option<ValueSource>, file: Option<&str>) -> Option<&str>
    ensures { result ≡ used_office uuid file.entry }
{
    match uuid {
        Some(ValueSource::CommandLine) => None,
        _ => file,
    }
}

/// How many files are numbered before the register: the office file is file 1.
pub fn files_before(matches: &ArgMatches<'_>) -> usize {
    match office_file(matches) {
        Some(_) => 1,
        None => 0,
    }
}

/// The status of the argument. clap rejects other words.
pub fn wanted(word: &str) -> Option<Wanted> {
    match word {
        "valid" => Some(Wanted::Valid),
        "superseded" => Some(Wanted::Superseded),
        "retired" => Some(Wanted::Retired),
        "live" => Some(Wanted::Live),
        _ => None,
    }
}

/// The replica of the argument.
pub fn replica(word: &str) -> Result<Uuid, CliFault>
    ensures spelled { IfOk result (λ u. Some u ≡ parsed word.now) }
    ensures fault { IfErr result (λ f. (f ≡ CliFault.Refused Refusal.BadReplica) × (None ≡ parsed word.now)) }
{
    match uuid_of(word) {
        Some(replica) => Ok(replica),
        None => Err(CliFault::Refused(Refusal::BadReplica)),
    }
}

// The UUID that the word spells.
fn uuid_of(word: &str) -> Option<Uuid>
    ensures { result ≡ parsed word.now }
{
    match Uuid::parse_str(word) {
        Ok(replica) => Some(replica),
        Err(_) => None,
    }
}

/// The ids on standard input, one a line, if one of the arguments is `-`. It is numbered as the file after the register.
pub fn listed(rt: &HostRuntime, matches: &ArgMatches<'_>, name: &str) -> Result<Vec<u8>, CliFault> {
    let own = if matches.get_flag("shelf") { 1 } else { 2 };
    let number = files_before(matches).saturating_add(own);
    if !matches
        .get_strs(name)
        .unwrap_or(&[])
        .contains(&STANDARD_INPUT)
    {
        return Ok(Vec::new(rt.alloc()));
    }
    let fault = match read_up_to(rt.alloc(), &mut Reading::new(rt.reader()), MAX_FILE + 1) {
        Ok(bytes) if bytes.len() <= MAX_FILE => return Ok(bytes),
        Ok(_) => InputFault::TooLarge,
        Err(InFault::ReadFailed(n)) => InputFault::ReadFailed(n),
        Err(InFault::Memory) => return Err(CliFault::Memory),
    };
    Err(CliFault::File { number, fault })
}

/// Appends words as they are.
pub fn push_words<'a>(found: &mut Vec<&'a [u8]>, words: &[&'a str]) -> Result<(), CliFault> {
    for word in words {
        if found.push(word.as_bytes()).is_err() {
            return Err(CliFault::Memory);
        }
    }
    Ok(())
}

/// Appends words, with the listed lines instead of `-`.
pub fn push_listed<'a>(
    found: &mut Vec<&'a [u8]>,
    words: &[&'a str],
    listed: &'a [u8],
) -> Result<(), CliFault> {
    for word in words {
        if *word == STANDARD_INPUT {
            if push_lines(found, listed).is_err() {
                return Err(CliFault::Memory);
            }
        } else {
            push_words(found, &[*word])?;
        }
    }
    Ok(())
}

// Lines end at LF, or at CR and LF; the last one may have no end.
fn push_lines<'a>(found: &mut Vec<&'a [u8]>, listed: &'a [u8]) -> Result<(), AllocError> {
    let lines = listed.strip_suffix(b"\n").unwrap_or(listed);
    if listed.is_empty() {
        return Ok(());
    }
    for line in lines.split(|byte| *byte == b'\n') {
        found.push(line.strip_suffix(b"\r").unwrap_or(line))?;
    }
    Ok(())
}

/// Opens the file with this number.
pub fn open<R: Files>(rt: &R, number: usize, path: &str) -> Result<Reading<R::File>, CliFault>
    ensures { IfErr result (λ f. f ≡ CliFault.File number InputFault.NotOpened) }
{
    match fs::open(rt, path) {
        Ok(file) => Ok(Reading::new(file)),
        Err(_) => Err(CliFault::File {
            number,
            fault: InputFault::NotOpened,
        }),
    }
}

/// Opens all files, in order, before the first is read. The first has this number.
pub fn open_all<R: Files>(
    rt: &R,
    alloc: Global,
    number: usize,
    paths: &[&str],
) -> Result<Vec<Reading<R::File>>, CliFault> {
    let mut sources = Vec::new(alloc);
    for (i, path) in paths.iter().enumerate() {
        let source = open(rt, i.saturating_add(number), path)?;
        if sources.push(source).is_err() {
            return Err(CliFault::Memory);
        }
    }
    Ok(sources)
}

/// Opens the file with this number; `-` is standard input.
pub fn open_text<R: Files>(rt: &R, number: usize, path: &str) -> Result<Reading<R::File>, CliFault>
    ensures { IfErr result (λ f. f ≡ CliFault.File number InputFault.NotOpened) }
{
    if path == STANDARD_INPUT {
        return open(rt, number, STANDARD_INPUT_PATH);
    }
    open(rt, number, path)
}

// Whether this word names standard input.
fn is_dash(word: &str) -> bool
    ensures { result ≡ is_dash word.now }
{
    word == STANDARD_INPUT
}

/// Whether standard input is named more than once.
pub fn is_twice(paths: &[&str]) -> bool
    ensures { IsTrue result ↔ (1 < count_by (λ path. is_dash path.now) paths.now) }
{
    paths.iter().filter(|path| is_dash(**path)).count() > 1
}

/// The place of an output file, which is not open yet.
pub fn place<'a>(
    rt: &'a HostRuntime,
    alloc: Global,
    path: &'a str,
) -> Result<OutPlace<'a>, CliFault>
    ensures { IfOk result (λ p. ⟦<OutPlace<'a> as Place>⟧.state p ≡ untold (target_of None)) }
{
    place_of(rt, alloc, path, None)
}

/// The place of the output file of a command that also prints. It cannot be the file that standard output goes to.
pub fn printing_place<'a>(
    rt: &'a HostRuntime,
    alloc: Global,
    path: &'a str,
) -> Result<OutPlace<'a>, CliFault> {
    place_of(rt, alloc, path, FileId::at(rt, STANDARD_OUTPUT_PATH))
}

/// OUT of a command that prints lines, unless it is quiet.
pub fn changed_place<'a>(
    rt: &'a HostRuntime,
    alloc: Global,
    path: &'a str,
    is_quiet: bool,
) -> Result<OutPlace<'a>, CliFault> {
    if is_quiet {
        return place(rt, alloc, path);
    }
    printing_place(rt, alloc, path)
}

fn place_of<'a>(
    rt: &'a HostRuntime,
    alloc: Global,
    path: &'a str,
    printed: Option<FileId>,
) -> Result<OutPlace<'a>, CliFault>
    ensures { IfOk result (λ p. ⟦<OutPlace<'a> as Place>⟧.state p ≡ untold (target_of None)) }
{
    match OutPlace::new(alloc, rt, path, printed) {
        Ok(place) => Ok(place),
        Err(_) => Err(CliFault::Memory),
    }
}
