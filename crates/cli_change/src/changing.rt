//! Changes a register, in its file or on its shelf, as an office with an office file or without one.
use crate::offices::Desk;
use byte_io::Writing;
use byte_out::Place;
use clap::ArgMatches;
use cli_open::{RegisterTarget, explains, open_target, word};
use reg_engine::{Change, CliFault, Keep, run_change};
use reg_news::watch::{Told, change_and_tell};
use reg_news::{News, OfCodes};
use std::fs::File;
use std::io::{self, Write};

/// What the last sentence of a command says: nothing, which codes stand otherwise, or all that the change brought.
#[derive(Clone, Copy, PartialEq, Eq)]
pub enum Says {
    Nothing,
    Codes,
    /// The same, without those that are superseded.
    CodesInUse,
    All,
}

impl Says {
    /// All, where sentences are on.
    fn all(matches: &ArgMatches<'_>) -> Says {
        if explains(matches) {
            Says::All
        } else {
            Says::Nothing
        }
    }

    /// The codes, where sentences are on. A command line that names what is superseded knows that it is.
    pub fn codes(matches: &ArgMatches<'_>) -> Says {
        if !explains(matches) {
            return Says::Nothing;
        }
        if matches.get_str("OLD").is_some() || matches.get_str("from").is_some() {
            return Says::CodesInUse;
        }
        Says::Codes
    }
}

/// Opens the register and changes it as the office, whose new file is removed afterwards if it was not used. Where sentences are on, the
/// last one says what the change brought.
pub fn changed<Q: Place, C: Change>(
    rt: &HostRuntime,
    matches: &ArgMatches<'_>,
    desk: &mut Desk<Q>,
    command: &mut C,
) -> Result<(), CliFault> {
    let answer = match open_target(rt, matches, word(matches, "out")) {
        Ok(target) => change_in(rt, matches, desk, target, command, Says::all(matches)),
        Err(fault) => Err(fault),
    };
    desk.close();
    answer
}

/// Changes the register as the office, and prints the command's lines, unless `--quiet` is given. Where sentences are on, the last one
/// says which codes stand otherwise.
pub fn change_of<Q: Place, P: Place + Drop, C: Change>(
    rt: &HostRuntime,
    matches: &ArgMatches<'_>,
    desk: &mut Desk<Q>,
    target: RegisterTarget<File, P>,
    command: &mut C,
) -> Result<(), CliFault> {
    change_in(rt, matches, desk, target, command, Says::codes(matches))
}

fn change_in<Q: Place, P: Place + Drop, C: Change>(
    rt: &HostRuntime,
    matches: &ArgMatches<'_>,
    desk: &mut Desk<Q>,
    target: RegisterTarget<File, P>,
    command: &mut C,
    says: Says,
) -> Result<(), CliFault> {
    if matches.get_flag("quiet") {
        let mut sink = Writing::new(io::sink());
        return change_to(rt, says, desk, target, command, &mut sink);
    }
    let mut sink = Writing::new(io::writer(rt));
    change_to(rt, says, desk, target, command, &mut sink)
}

fn change_to<Q: Place, P: Place + Drop, C: Change, W: Write>(
    rt: &HostRuntime,
    says: Says,
    desk: &mut Desk<Q>,
    target: RegisterTarget<File, P>,
    command: &mut C,
    sink: &mut Writing<W>,
) -> Result<(), CliFault> {
    let mut target = target;
    let mut store = target.store(&mut desk.file);
    let answer = change_and_say(rt, says, &mut store, command, sink);
    drop(store);
    drop(target);
    answer
}

/// Changes what a store has, and says what that brought.
pub fn change_and_say<T: Keep, C: Change, W: Write>(
    rt: &HostRuntime,
    says: Says,
    store: &mut T,
    command: &mut C,
    sink: &mut Writing<W>,
) -> Result<(), CliFault> {
    if says == Says::Nothing {
        return run_change(rt.alloc(), store, command, sink);
    }
    let Told { answer, news } = change_and_tell(rt.alloc(), store, command, sink);
    let Ok(Some(news)) = &news else {
        return answer;
    };
    if says == Says::All {
        let _ = eprint!(rt; "{news}");
        return answer;
    }
    let codes = OfCodes {
        news,
        superseded: says == Says::Codes,
    };
    let _ = eprint!(rt; "{codes}");
    answer
}

/// Says what a change brought, if that is known.
pub fn say_news(rt: &HostRuntime, news: &Option<News>) {
    if let Some(news) = news {
        let _ = eprint!(rt; "{news}");
    }
}
