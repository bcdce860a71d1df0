//! Commands that print something of a register: an entry, a text, ids, a page.
use byte_io::Writing;
use clap::ArgMatches;
use cli_open::{entry, names_again, open_register, print_of, word};
use crs_sense::RULES;
use reg_commands::{ByWord, Form, OpsReport, PrintOf, Show, ShowOf, Wkt, WktOf};
use reg_engine::CliFault;
use reg_page::{Page, run_page};
use std::io;

/// The title of a page without one.
const NO_TITLE: &str = "The register";

/// `show`.
pub fn show(rt: &HostRuntime, matches: &ArgMatches<'_>) -> Result<(), CliFault> {
    if matches.get_flag("keys") {
        return print_by_word(rt, matches, &ShowOf);
    }
    show_entry(rt, matches)
}

fn show_entry(rt: &HostRuntime, matches: &ArgMatches<'_>) -> Result<(), CliFault> {
    match entry(rt, matches, word(matches, "ENTRY")) {
        Ok(entry) => print_of(rt, matches, &Show { entry }),
        Err(fault) => Err(fault),
    }
}

/// `wkt`.
pub fn wkt(rt: &HostRuntime, matches: &ArgMatches<'_>) -> Result<(), CliFault> {
    if matches.get_flag("keys") {
        let form = form(matches);
        return print_by_word(rt, matches, &WktOf { form });
    }
    wkt_entry(rt, matches)
}

fn wkt_entry(rt: &HostRuntime, matches: &ArgMatches<'_>) -> Result<(), CliFault> {
    let form = form(matches);
    match entry(rt, matches, word(matches, "ENTRY")) {
        Ok(entry) => print_of(rt, matches, &Wkt { entry, form }),
        Err(fault) => Err(fault),
    }
}

// The requested layout of a text.
fn form(matches: &ArgMatches<'_>) -> Form {
    if matches.get_flag("pretty") {
        Form::Indented
    } else {
        Form::Canonical
    }
}

// Prints something of the entry that the word names.
fn print_by_word<C: PrintOf>(
    rt: &HostRuntime,
    matches: &ArgMatches<'_>,
    command: &C,
) -> Result<(), CliFault> {
    let word = word(matches, "ENTRY").as_bytes();
    print_of(rt, matches, &ByWord { word, command })
}

/// `ops`.
pub fn ops(rt: &HostRuntime, matches: &ArgMatches<'_>) -> Result<(), CliFault> {
    print_of(rt, matches, &OpsReport)
}

/// `page`.
pub fn page(rt: &HostRuntime, matches: &ArgMatches<'_>) -> Result<(), CliFault> {
    let names = match names_again(rt, matches) {
        Ok(names) => names,
        Err(fault) => return Err(fault),
    };
    let page = Page {
        title: matches.get_str("title").unwrap_or(NO_TITLE).as_bytes(),
        names: names.as_slice(),
        rules: if matches.get_flag("lint") {
            &RULES
        } else {
            &[]
        },
    };
    let mut sink = Writing::new(io::writer(rt));
    let register = open_register(rt, rt.alloc(), matches, "REG", &None)?;
    run_page(rt.alloc(), &mut register.reading(), &page, &mut sink)
}
