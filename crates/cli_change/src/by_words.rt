//! Changes a register by a command on the entries that words name, which has its effects once, also if it is run again after a stop.
use crate::changing::{Says, change_and_say};
use crate::offices::Desk;
use byte_io::Writing;
use byte_out::Place;
use clap::ArgMatches;
use cli_open::{OpenOffice, RegisterTarget, open_target, word};
use reg_commands::ByWords;
use reg_commands::again::{EffectsOf, OnceOf};
use reg_engine::CliFault;
use std::fs::File;
use std::io::{self, Write};

/// Opens the register and changes it as the office, whose new file is removed afterwards if it was not used.
pub fn changed_by_words<Q: Place, C: EffectsOf>(
    rt: &HostRuntime,
    matches: &ArgMatches<'_>,
    desk: &mut Desk<Q>,
    command: &ByWords<'_, C>,
) -> Result<(), CliFault> {
    let answer = match open_target(rt, matches, word(matches, "out")) {
        Ok(target) => change_in(rt, matches, desk, target, command),
        Err(fault) => Err(fault),
    };
    desk.close();
    answer
}

// Changes the register as the office, and prints the command's lines, unless `--quiet` is given. Where sentences are on, the last
// one says which codes stand otherwise.
fn change_in<Q: Place, P: Place + Drop, C: EffectsOf>(
    rt: &HostRuntime,
    matches: &ArgMatches<'_>,
    desk: &mut Desk<Q>,
    target: RegisterTarget<File, P>,
    command: &ByWords<'_, C>,
) -> Result<(), CliFault> {
    let says = Says::codes(matches);
    if matches.get_flag("quiet") {
        let mut sink = Writing::new(io::sink());
        return change_to(rt, says, desk, target, command, &mut sink);
    }
    let mut sink = Writing::new(io::writer(rt));
    change_to(rt, says, desk, target, command, &mut sink)
}

fn change_to<Q: Place, P: Place + Drop, C: EffectsOf, W: Write>(
    rt: &HostRuntime,
    says: Says,
    desk: &mut Desk<Q>,
    target: RegisterTarget<File, P>,
    command: &ByWords<'_, C>,
    sink: &mut Writing<W>,
) -> Result<(), CliFault> {
    let mut target = target;
    let answer = match &mut desk.file {
        Some(office) => change_guarded(rt, says, &mut target, office, command, sink),
        None => change_plainly(rt, says, &mut target, command, sink),
    };
    drop(target);
    answer
}

// As an office with an office file. If the office has made this before, and it did not arrive, nothing is made.
fn change_guarded<P: Place, Q: Place, C: EffectsOf, W: Write>(
    rt: &HostRuntime,
    says: Says,
    target: &mut RegisterTarget<File, P>,
    office: &mut OpenOffice<Q>,
    command: &ByWords<'_, C>,
    sink: &mut Writing<W>,
) -> Result<(), CliFault> {
    let OpenOffice { file, place } = office;
    let file = &*file;
    let once = OnceOf {
        command: command.command,
        office: file,
    };
    let mut by_words = ByWords {
        words: command.words,
        newer: command.newer,
        command: &once,
    };
    let mut store = target.guarded(file, place);
    change_and_say(rt, says, &mut store, &mut by_words, sink)
}

fn change_plainly<P: Place, C: EffectsOf, W: Write>(
    rt: &HostRuntime,
    says: Says,
    target: &mut RegisterTarget<File, P>,
    command: &ByWords<'_, C>,
    sink: &mut Writing<W>,
) -> Result<(), CliFault> {
    let mut by_words = ByWords {
        words: command.words,
        newer: command.newer,
        command: command.command,
    };
    change_and_say(rt, says, &mut target.plain(), &mut by_words, sink)
}
