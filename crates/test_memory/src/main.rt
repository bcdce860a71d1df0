//! Makes one public call, for runs in which allocations fail: `test_memory CASE WORD..`. It makes the objects, prints
//! `ready`, makes the call, and prints the outcome. If memory fails in the call, it checks that the object of the call is
//! unchanged.
#![tactic(auto)]

mod outcome;
mod registers;
mod shelves;
mod texts;

use outcome::TestOutcome;
use std::process::ExitCode;
use std::{env, io};

fn main(rt: HostRuntime) -> ExitCode {
    match perform(&rt) {
        Ok(outcome) => outcome.print(&rt),
        Err(_) => ExitCode::from(4),
    }
}

/// The outcome of the call. It is an error if memory fails before the objects are made.
fn perform(rt: &HostRuntime) -> io::Result<TestOutcome> {
    let words: Vec<String> = env::args(rt)?.collect(rt.alloc())?;
    match word(&words, 1) {
        "read" => texts::read(rt, &words),
        "indent" => texts::indent(rt, &words),
        "define" => texts::define(rt, &words),
        "note" => texts::note(rt, &words),
        "take" => registers::take(rt, &words),
        "join" => registers::join(rt, &words),
        "piece" => registers::piece(rt, &words),
        "supersede" => registers::supersede(rt, &words),
        "report" => registers::report(rt, &words),
        "register" => registers::register(rt, &words),
        "merge" => registers::merge(rt, &words),
        "keep" => shelves::keep(rt, &words),
        "restore" => shelves::restore(rt, &words),
        _ => Ok(TestOutcome::Wrong),
    }
}

/// The word at this index; empty if there is none.
fn word(words: &[String], place: usize) -> &str {
    match words.get(place) {
        Some(word) => word.as_str(),
        None => "",
    }
}

/// Prints that the objects are made.
fn ready(rt: &HostRuntime) -> io::Result<()> {
    println!(rt; "ready")
}
