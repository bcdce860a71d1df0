//! `take` of files, as an office with an office file.
use crate::asked::take_options;
use crate::undone::UnlessListed;
use byte_io::{LateSource, Writing};
use byte_out::Place;
use clap::ArgMatches;
use cli_open::{
    OpenOffice, OpenedRegister, Rows, answered, open_office, open_register, open_target, word,
};
use reg_engine::CliFault;
use reg_guard::{TriedFile, TriedShelf};
use reg_journal::OfficeFile;
use reg_take::{TakeEffect, run_take, try_take};
use std::io::{self, Write};

/// Joins the files to the register, and prints what changed. The office file then says which of its numbers stand in the register.
pub fn take_as<S: LateSource>(
    rt: &HostRuntime,
    matches: &ArgMatches<'_>,
    path: &str,
    files: &mut [S],
) -> Result<TakeEffect, CliFault> {
    let mut office = open_office(rt, rt.alloc(), path)?;
    let mut sink = Rows::sink(rt, matches, UnlessListed::new(matches, io::writer(rt)));
    let answer = if matches.get_flag("dry-run") {
        try_take_to(rt, matches, &office.file, files, &mut sink)
    } else {
        take_to(rt, matches, &mut office, files, &mut sink)
    };
    office.place.remove();
    drop(office);
    match answered(rt.alloc(), sink, answer) {
        Ok(answer) => answer,
        Err(fault) => Err(fault),
    }
}

fn take_to<Q: Place, S: LateSource, W: Write>(
    rt: &HostRuntime,
    matches: &ArgMatches<'_>,
    office: &mut OpenOffice<Q>,
    files: &mut [S],
    sink: &mut Writing<W>,
) -> Result<TakeEffect, CliFault> {
    let OpenOffice { file, place } = office;
    let file = &*file;
    let options = take_options(rt.alloc(), matches, Some(file))?;
    let mut target = open_target(rt, matches, word(matches, "REG"))?;
    let mut store = target.guarded(file, place);
    let answer = run_take(rt.alloc(), &mut store, files, &options, sink);
    drop(store);
    drop(target);
    answer
}

fn try_take_to<S: LateSource, W: Write>(
    rt: &HostRuntime,
    matches: &ArgMatches<'_>,
    file: &OfficeFile,
    files: &mut [S],
    sink: &mut Writing<W>,
) -> Result<TakeEffect, CliFault> {
    let options = take_options(rt.alloc(), matches, Some(file))?;
    match open_register(rt, rt.alloc(), matches, "REG", &None)? {
        OpenedRegister::File(source) => {
            let mut source = source;
            let mut store = TriedFile {
                source: &mut source,
                file,
            };
            try_take(rt.alloc(), &mut store, files, &options, sink)
        }
        OpenedRegister::Shelf(disk) => {
            let mut disk = disk;
            let mut store = TriedShelf {
                disk: &mut disk,
                file,
            };
            try_take(rt.alloc(), &mut store, files, &options, sink)
        }
    }
}
