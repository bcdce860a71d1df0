//! The command `enter`.
use byte_io::Source;
use byte_out::Place;
use clap::ArgMatches;
use cli_change::{Desk, change_once, office_named, open_desk};
use cli_open::ending::{Outcome, ended};
use cli_open::{RegisterTarget, explains, files_before, open, open_target, word};
use reg_commands::Enter;
use reg_desk::{Explained, explained_fault};
use reg_engine::CliFault;
use std::alloc::Global;
use std::fs::File;
use wkt_explain::Recorded;

/// `enter`. It parses the replica, and then opens the files.
pub fn enter(rt: &HostRuntime, matches: &ArgMatches<'_>) -> Outcome<Explained> {
    ended(rt.alloc(), entered(rt, matches))
}

fn entered(rt: &HostRuntime, matches: &ArgMatches<'_>) -> Result<(), Explained> {
    let named = match office_named(matches) {
        Ok(named) => named,
        Err(fault) => return Err(without_note(rt.alloc(), fault)),
    };
    let mut desk = match open_desk(rt, rt.alloc(), named, word(matches, "office")) {
        Ok(desk) => desk,
        Err(fault) => return Err(without_note(rt.alloc(), fault)),
    };
    let answer = enter_at(rt, matches, &mut desk);
    desk.close();
    answer
}

fn enter_at<Q: Place>(
    rt: &HostRuntime,
    matches: &ArgMatches<'_>,
    desk: &mut Desk<Q>,
) -> Result<(), Explained> {
    let path = word(matches, "text");
    let target = match open_target(rt, matches, word(matches, "out")) {
        Ok(target) => target,
        Err(fault) => return Err(without_note(rt.alloc(), fault)),
    };
    let number = target.next().saturating_add(files_before(matches));
    let mut text = match open(rt, number, path) {
        Ok(file) => Recorded::new(rt.alloc(), file),
        Err(fault) => return Err(without_note(rt.alloc(), fault)),
    };
    match enter_text(rt, matches, desk, target, &mut text) {
        Ok(()) => Ok(()),
        Err(fault) => Err(not_entered(rt, matches, path, &text, fault)),
    }
}

// Enters the text that the source gives.
fn enter_text<Q: Place, P: Place + Drop, X: Source>(
    rt: &HostRuntime,
    matches: &ArgMatches<'_>,
    desk: &mut Desk<Q>,
    target: RegisterTarget<File, P>,
    text: &mut X,
) -> Result<(), CliFault> {
    let command = Enter {
        replica: desk.replica,
        text,
        note: word(matches, "note"),
    };
    change_once(rt, matches, desk, target, command)
}

// A fault without an explanation.
fn without_note(alloc: Global, fault: CliFault) -> Explained {
    Explained {
        fault,
        note: Vec::new(alloc),
    }
}

// Why the text at the path was not entered.
fn not_entered<X: Source>(
    rt: &HostRuntime,
    matches: &ArgMatches<'_>,
    path: &str,
    text: &Recorded<X>,
    fault: CliFault,
) -> Explained {
    if explains(matches) {
        return explained_fault(rt.alloc(), path, text, fault);
    }
    without_note(rt.alloc(), fault)
}
