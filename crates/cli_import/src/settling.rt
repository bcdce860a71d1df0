//! The command `settle`.
use clap::ArgMatches;
use cli_change::{TWICE, changed, office_named, open_desk};
use cli_open::ending::{NotDone, Outcome, ended};
use cli_open::{entries, is_twice, listed, push_listed, word};
use reg_desk::{Settle, SettleEqual};
use reg_engine::CliFault;

/// `settle`.
pub fn settle(rt: &HostRuntime, matches: &ArgMatches<'_>) -> Outcome<CliFault> {
    if is_twice(matches.get_strs("KEEP").unwrap_or(&[])) {
        return Err(NotDone::Misuse(TWICE));
    }
    ended(rt.alloc(), settled(rt, matches))
}

fn settled(rt: &HostRuntime, matches: &ArgMatches<'_>) -> Result<(), CliFault> {
    let listed = listed(rt, matches, "KEEP")?;
    let named = office_named(matches)?;
    let mut given = Vec::new(rt.alloc());
    push_listed(&mut given, matches.get_strs("KEEP").unwrap_or(&[]), &listed)?;
    let keeps = entries(rt, matches, &given)?;
    let note = word(matches, "note");
    let mut desk = open_desk(rt, rt.alloc(), named, word(matches, "office"))?;
    let replica = desk.replica;
    if matches.get_flag("equal") {
        let mut command = SettleEqual { replica, note };
        return changed(rt, matches, &mut desk, &mut command);
    }
    let mut command = Settle {
        replica,
        keeps: &keeps,
        note,
    };
    changed(rt, matches, &mut desk, &mut command)
}
