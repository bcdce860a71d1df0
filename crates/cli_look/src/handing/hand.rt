//! The commands `export` and `graph`.
use crate::handing::into::export_into;
use crate::handing::left::{Exported, left_out, room_for_left};
use byte_io::Writing;
use clap::ArgMatches;
use cli_open::ending::{NotDone, ended};
use cli_open::{names_again, open_register, print_of, wanted, word};
use reg_commands::Export;
use reg_engine::CliFault;
use reg_export::{Choice, Format, Graph, LeftOutOfFolder, run_handed};
use reg_op::OpId;
use std::io;

const NOT_HANDED: &str =
    "error: --status, --authority and --keep-going go with --into, --geojson, --csv or --proj-sql";

const NOT_ALL: &str = "error: --all goes with --proj-sql";

/// `export`.
pub fn export(rt: &HostRuntime, matches: &ArgMatches<'_>) -> Exported {
    let choice = Choice {
        status: wanted(word(matches, "status")),
        authority: matches.get_str("authority"),
    };
    let keep_going = matches.get_flag("keep-going");
    if matches.get_flag("all") && !matches.get_flag("proj-sql") {
        return Err(NotDone::Misuse(NOT_ALL));
    }
    if matches.contains_id("into") {
        return export_into(rt, matches, &choice, keep_going);
    }
    if let Some(format) = format_of(matches) {
        return export_as(rt, matches, format, &choice, keep_going);
    }
    if choice.status.is_some() || choice.authority.is_some() || keep_going {
        return Err(NotDone::Misuse(NOT_HANDED));
    }
    ended(rt.alloc(), print_of(rt, matches, &Export))
}

/// `graph`.
pub fn graph(rt: &HostRuntime, matches: &ArgMatches<'_>) -> Result<(), CliFault> {
    let names = match names_again(rt, matches) {
        Ok(names) => names,
        Err(fault) => return Err(fault),
    };
    let graph = Graph {
        all: matches.get_flag("all"),
        names: names.as_slice(),
    };
    print_of(rt, matches, &graph)
}

fn format_of(matches: &ArgMatches<'_>) -> Option<Format> {
    if matches.get_flag("geojson") {
        return Some(Format::Geojson);
    }
    if matches.get_flag("proj-sql") {
        let all = matches.get_flag("all");
        return Some(Format::ProjSql { all });
    }
    if matches.get_flag("csv") {
        return Some(Format::Csv);
    }
    None
}

// Opens the register and prints what is handed on.
fn export_as(
    rt: &HostRuntime,
    matches: &ArgMatches<'_>,
    format: Format,
    choice: &Choice<'_>,
    keep_going: bool,
) -> Exported {
    let room = match room_for_left(rt.alloc()) {
        Ok(room) => room,
        Err(fault) => return Err(NotDone::Fault(fault)),
    };
    match print_as(rt, matches, format, choice, keep_going) {
        Ok(taken) => left_out(room, &LeftOutOfFolder { taken, long: None }),
        Err(fault) => Err(NotDone::Fault(fault)),
    }
}

fn print_as(
    rt: &HostRuntime,
    matches: &ArgMatches<'_>,
    format: Format,
    choice: &Choice<'_>,
    keep_going: bool,
) -> Result<Option<OpId>, CliFault> {
    let mut sink = Writing::new(io::writer(rt));
    let register = open_register(rt, rt.alloc(), matches, "REG", &None)?;
    let mut store = register.reading();
    run_handed(
        rt.alloc(),
        &mut store,
        format,
        choice,
        keep_going,
        &mut sink,
    )
}
