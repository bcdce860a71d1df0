//! `take` without files, which brings what an office made to its register.
use crate::asked::take_options;
use crate::brought::Gained;
use crate::undone::UnlessListed;
use byte_io::Writing;
use byte_out::Place;
use clap::ArgMatches;
use cli_open::{
    OpenOffice, OpenedRegister, Rows, answered, explains, open_office, open_register, open_target,
    word,
};
use reg_engine::{CliFault, Keep, Store, run_change, run_print};
use reg_guard::{TriedFile, TriedShelf};
use reg_journal::OfficeFile;
use reg_news::watch::{Notes, Watched};
use reg_take::own::{CatchUp, Catching, WouldCatchUp, caught_up};
use std::alloc::Global;
use std::io::{self, Write};

/// Joins all that the office of the office file at this path made to the register, and prints what changed, or nothing with `--undone`.
/// Returns the register before and after, where sentences are on and there was memory for copies. The offices that `--from` names are
/// looked at, and have no files here.
pub fn catch_up(
    rt: &HostRuntime,
    matches: &ArgMatches<'_>,
    path: &str,
) -> Result<Option<Gained>, CliFault> {
    let mut office = open_office(rt, rt.alloc(), path)?;
    let mut sink = Rows::sink(rt, matches, UnlessListed::new(matches, io::writer(rt)));
    let answer = if matches.get_flag("dry-run") {
        try_to(rt, matches, &office.file, &mut sink)
    } else {
        catch_up_to(rt, matches, &mut office, &mut sink)
    };
    let answer = answered(rt.alloc(), sink, answer);
    office.place.remove();
    drop(office);
    match answer {
        Ok(answer) => answer,
        Err(fault) => Err(fault),
    }
}

fn catch_up_to<Q: Place, W: Write>(
    rt: &HostRuntime,
    matches: &ArgMatches<'_>,
    office: &mut OpenOffice<Q>,
    sink: &mut Writing<W>,
) -> Result<Option<Gained>, CliFault> {
    take_options(rt.alloc(), matches, None)?;
    let mut target = open_target(rt, matches, word(matches, "REG"))?;
    let OpenOffice { file, place } = office;
    let file = &*file;
    let mut store = Catching {
        store: target.guarded(file, place),
        file,
    };
    let answer = changed(rt.alloc(), &mut store, explains(matches), sink);
    drop(store);
    drop(target);
    answer
}

fn changed<T: Keep, W: Write>(
    alloc: Global,
    store: &mut T,
    tells: bool,
    sink: &mut Writing<W>,
) -> Result<Option<Gained>, CliFault> {
    if !tells {
        run_change(alloc, store, &mut CatchUp, sink)?;
        return Ok(None);
    }
    let mut notes = Notes::none();
    let answer = {
        let mut watched = Watched {
            store,
            notes: &mut notes,
        };
        run_change(alloc, &mut watched, &mut CatchUp, sink)
    };
    answer?;
    let Notes { loaded, kept } = notes;
    let Some(Ok(before)) = loaded else {
        return Ok(None);
    };
    let Some(Ok(after)) = kept else {
        return Ok(None);
    };
    Ok(Some(Gained {
        before,
        after,
        retired: Vec::new(alloc),
        inputs: None,
    }))
}

// Prints what would change, and writes nothing.
fn try_to<W: Write>(
    rt: &HostRuntime,
    matches: &ArgMatches<'_>,
    file: &OfficeFile,
    sink: &mut Writing<W>,
) -> Result<Option<Gained>, CliFault> {
    take_options(rt.alloc(), matches, None)?;
    let tells = explains(matches);
    match open_register(rt, rt.alloc(), matches, "REG", &None)? {
        OpenedRegister::File(source) => {
            let mut source = source;
            let mut store = TriedFile {
                source: &mut source,
                file,
            };
            printed(rt.alloc(), &mut store, file, tells, sink)
        }
        OpenedRegister::Shelf(disk) => {
            let mut disk = disk;
            let mut store = TriedShelf {
                disk: &mut disk,
                file,
            };
            printed(rt.alloc(), &mut store, file, tells, sink)
        }
    }
}

fn printed<T: Store, W: Write>(
    alloc: Global,
    store: &mut T,
    file: &OfficeFile,
    tells: bool,
    sink: &mut Writing<W>,
) -> Result<Option<Gained>, CliFault> {
    let command = WouldCatchUp { file };
    if !tells {
        run_print(alloc, store, &command, sink)?;
        return Ok(None);
    }
    let mut notes = Notes::none();
    let answer = {
        let mut watched = Watched {
            store,
            notes: &mut notes,
        };
        run_print(alloc, &mut watched, &command, sink)
    };
    answer?;
    let Notes { loaded, kept: _ } = notes;
    let Some(Ok(before)) = loaded else {
        return Ok(None);
    };
    match caught_up(alloc, file, &before) {
        Ok(after) => Ok(Some(Gained {
            before,
            after,
            retired: Vec::new(alloc),
            inputs: None,
        })),
        Err(_) => Ok(None),
    }
}
