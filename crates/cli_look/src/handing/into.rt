//! The command `export --into`.
use crate::handing::left::{Exported, left_out, room_for_left};
use byte_folder::SystemFolder;
use clap::ArgMatches;
use cli_open::ending::NotDone;
use cli_open::{open_register, word};
use reg_engine::CliFault;
use reg_export::{Choice, LeftOutOfFolder, run_into};

/// Opens the register, and puts a folder with a file for each key in place.
pub fn export_into(
    rt: &HostRuntime,
    matches: &ArgMatches<'_>,
    choice: &Choice<'_>,
    keep_going: bool,
) -> Exported {
    let room = match room_for_left(rt.alloc()) {
        Ok(room) => room,
        Err(fault) => return Err(NotDone::Fault(fault)),
    };
    match put_into(rt, matches, choice, keep_going) {
        Ok(left) => left_out(room, &left),
        Err(fault) => Err(NotDone::Fault(fault)),
    }
}

fn put_into(
    rt: &HostRuntime,
    matches: &ArgMatches<'_>,
    choice: &Choice<'_>,
    keep_going: bool,
) -> Result<LeftOutOfFolder, CliFault> {
    let Ok(mut place) = SystemFolder::new(rt.alloc(), rt, word(matches, "into")) else {
        return Err(CliFault::Memory);
    };
    let answer = match open_register(rt, rt.alloc(), matches, "REG", &None) {
        Ok(register) => {
            let mut store = register.reading();
            run_into(rt.alloc(), &mut store, choice, keep_going, &mut place)
        }
        Err(fault) => Err(fault),
    };
    drop(place);
    answer
}
