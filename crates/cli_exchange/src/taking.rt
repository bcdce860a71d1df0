//! The command `take`.

ghost use Rattle.cli_open.specs.Outcome.{IsEnded, IsPart};
ghost use Rattle.reg_take.specs.declared.effect.TakeEffect.{TakeEffect};

use crate::as_office::take_as;
use crate::asked::take_options;
use crate::brought::Gained;
use crate::catching::catch_up;
use crate::undone::{UnlessListed, print_undone};
use byte_io::{LateFile, LateSource};
use clap::ArgMatches;
use cli_faults::CommandFiles;
use cli_open::ending::{Done, NotDone, Outcome, all_done};
use cli_open::{Rows, answered, explains, office_file, open_register, open_target, word};
use cli_words::CommandName;
use reg_engine::{CliFault, OutFault, ShelfProblem};
use reg_state::Register;
use reg_take::{LeftOut, TakeEffect, inputs_of, run_take, try_take};
use std::alloc::{AllocError, Global};
use std::io;
use std::rt::Files;

/// The complaint if there is nothing to take.
const NO_FILE: &str = "error: take needs a FILE, or an office file";

/// How a take ended: with the files that it left out, and with what the others brought.
pub type Taken = Outcome<CliFault, LeftOut, Option<Gained>>;

/// `take`. The register is opened first, and each file when its turn comes. Without files it brings what an office made.
pub fn take(rt: &HostRuntime, matches: &ArgMatches<'_>) -> Taken {
    let paths = matches.get_strs("FILE").unwrap_or(&[]);
    if paths.is_empty() {
        return match office_file(matches) {
            Some(path) => caught_up(rt.alloc(), catch_up(rt, matches, path)),
            None => Err(NotDone::Misuse(NO_FILE)),
        };
    }
    let Ok(mut files) = late_files(rt, rt.alloc(), paths) else {
        return Err(NotDone::Fault(CliFault::Memory));
    };
    let taken = match office_file(matches) {
        Some(path) => take_as(rt, matches, path, &mut files),
        None if matches.get_flag("dry-run") => taken_dry(rt, matches, &mut files),
        None => taken_in(rt, matches, &mut files),
    };
    match taken {
        // A dry run on a shelf knows that no shelf can have the register.
        Err(CliFault::Out(OutFault::TooLarge)) if matches.get_flag("shelf") => {
            Err(NotDone::Fault(CliFault::Shelf(ShelfProblem::TooLarge)))
        }
        taken => told(rt, matches, taken),
    }
}

// Looks for what the join undid, if sentences are on or a list of it is printed in the place of the rows.
fn told(rt: &HostRuntime, matches: &ArgMatches<'_>, taken: Result<TakeEffect, CliFault>) -> Taken {
    let lists = matches.get_flag("undone");
    let inputs = match &taken {
        Ok(effect) if lists || explains(matches) => looked_for(rt.alloc(), matches, effect),
        _ => None,
    };
    if lists {
        if let Ok(effect) = &taken {
            if let Err(fault) = print_list(rt, matches, &inputs, &effect.after) {
                return Err(NotDone::Fault(fault));
            }
        }
    }
    joined(inputs, taken)
}

// The register before, and what each file had. Where offices are named, what the others did is not known.
fn looked_for(
    alloc: Global,
    matches: &ArgMatches<'_>,
    effect: &TakeEffect,
) -> Option<Vec<Register>> {
    if matches.get_strs("from").is_some() {
        return None;
    }
    inputs_of(alloc, effect).ok()
}

fn print_list(
    rt: &HostRuntime,
    matches: &ArgMatches<'_>,
    inputs: &Option<Vec<Register>>,
    after: &Register,
) -> Result<(), CliFault> {
    let Some(inputs) = inputs else {
        return Err(CliFault::Memory);
    };
    let named = if explains(matches) {
        CommandFiles::of(rt, CommandName::Take, matches).ok()
    } else {
        None
    };
    print_undone(rt, inputs, after, &named)
}

// A take of files that is done left out what its engine left out.
fn joined(inputs: Option<Vec<Register>>, taken: Result<TakeEffect, CliFault>) -> Taken
    ensures { IsPart (λ (t : TakeEffect). t.left.items) taken result }
{
    match taken {
        Ok(effect) => {
            let TakeEffect {
                before,
                after,
                left,
                retired,
                arrivals: _,
            } = effect;
            Ok(Done {
                left,
                differs: false,
                brought: Some(Gained {
                    before,
                    after,
                    retired,
                    inputs,
                }),
            })
        }
        Err(fault) => Err(NotDone::Fault(fault)),
    }
}

// A take without files leaves nothing out.
fn caught_up(alloc: Global, answer: Result<Option<Gained>, CliFault>) -> Taken
    ensures { IsEnded answer result }
{
    match answer {
        Ok(gained) => Ok(all_done(alloc, gained)),
        Err(fault) => Err(NotDone::Fault(fault)),
    }
}

fn late_files<'a, R: Files>(
    rt: &'a R,
    alloc: Global,
    paths: &[&'a str],
) -> Result<Vec<LateFile<'a, R>>, AllocError> {
    let mut files = Vec::new(alloc);
    for path in paths {
        files.push(LateFile::new(rt, *path))?;
    }
    Ok(files)
}

// Joins the files to the register, and prints what changed.
fn taken_in<S: LateSource>(
    rt: &HostRuntime,
    matches: &ArgMatches<'_>,
    files: &mut [S],
) -> Result<TakeEffect, CliFault> {
    let options = take_options(rt.alloc(), matches, None)?;
    let mut target = open_target(rt, matches, word(matches, "REG"))?;
    let mut sink = Rows::sink(rt, matches, UnlessListed::new(matches, io::writer(rt)));
    let answer = run_take(rt.alloc(), &mut target.plain(), files, &options, &mut sink);
    drop(target);
    match answered(rt.alloc(), sink, answer) {
        Ok(answer) => answer,
        Err(fault) => Err(fault),
    }
}

// Prints what would change, and writes nothing.
fn taken_dry<S: LateSource>(
    rt: &HostRuntime,
    matches: &ArgMatches<'_>,
    files: &mut [S],
) -> Result<TakeEffect, CliFault> {
    let options = take_options(rt.alloc(), matches, None)?;
    let register = open_register(rt, rt.alloc(), matches, "REG", &None)?;
    let mut sink = Rows::sink(rt, matches, UnlessListed::new(matches, io::writer(rt)));
    let answer = try_take(
        rt.alloc(),
        &mut register.reading(),
        files,
        &options,
        &mut sink,
    );
    match answered(rt.alloc(), sink, answer) {
        Ok(answer) => answer,
        Err(fault) => Err(fault),
    }
}
