//! Changes a register by a command that has its effects once, also if it is run again after a stop.
use crate::changing::{Says, change_and_say};
use crate::offices::Desk;
use byte_io::Writing;
use byte_out::Place;
use clap::ArgMatches;
use cli_open::{OpenOffice, RegisterTarget, open_target, word};
use reg_commands::again::{Effects, Once};
use reg_engine::CliFault;
use std::fs::File;
use std::io::{self, Write};

/// Opens the register and changes it as the office, whose new file is removed afterwards if it was not used.
pub fn changed_once<Q: Place, C: Effects + Drop>(
    rt: &HostRuntime,
    matches: &ArgMatches<'_>,
    desk: &mut Desk<Q>,
    command: C,
) -> Result<(), CliFault> {
    let answer = match open_target(rt, matches, word(matches, "out")) {
        Ok(target) => change_once(rt, matches, desk, target, command),
        Err(fault) => Err(fault),
    };
    desk.close();
    answer
}

/// Changes the register as the office, and prints the command's lines, unless `--quiet` is given. Where sentences are on, the
/// last one says which codes stand otherwise.
pub fn change_once<Q: Place, P: Place + Drop, C: Effects + Drop>(
    rt: &HostRuntime,
    matches: &ArgMatches<'_>,
    desk: &mut Desk<Q>,
    target: RegisterTarget<File, P>,
    command: C,
) -> Result<(), CliFault> {
    let says = Says::codes(matches);
    if matches.get_flag("quiet") {
        let mut sink = Writing::new(io::sink());
        return change_to(rt, says, desk, target, command, &mut sink);
    }
    let mut sink = Writing::new(io::writer(rt));
    change_to(rt, says, desk, target, command, &mut sink)
}

fn change_to<Q: Place, P: Place + Drop, C: Effects + Drop, W: Write>(
    rt: &HostRuntime,
    says: Says,
    desk: &mut Desk<Q>,
    target: RegisterTarget<File, P>,
    command: C,
    sink: &mut Writing<W>,
) -> Result<(), CliFault> {
    let mut target = target;
    let answer = match &mut desk.file {
        Some(office) => change_guarded(rt, says, &mut target, office, command, sink),
        None => change_plainly(rt, says, &mut target, command, sink),
    };
    drop(target);
    answer
}

// As an office with an office file. If the office has made this before, and it did not arrive, nothing is made.
fn change_guarded<P: Place, Q: Place, C: Effects + Drop, W: Write>(
    rt: &HostRuntime,
    says: Says,
    target: &mut RegisterTarget<File, P>,
    office: &mut OpenOffice<Q>,
    command: C,
    sink: &mut Writing<W>,
) -> Result<(), CliFault> {
    let OpenOffice { file, place } = office;
    let file = &*file;
    let mut once = Once {
        command,
        office: file,
    };
    let mut store = target.guarded(file, place);
    change_and_say(rt, says, &mut store, &mut once, sink)
}

fn change_plainly<P: Place, C: Effects + Drop, W: Write>(
    rt: &HostRuntime,
    says: Says,
    target: &mut RegisterTarget<File, P>,
    command: C,
    sink: &mut Writing<W>,
) -> Result<(), CliFault> {
    let mut command = command;
    change_and_say(rt, says, &mut target.plain(), &mut command, sink)
}
