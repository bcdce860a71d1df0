//! Commands that make and exchange registers.
use crate::brought::say_merged;
use crate::replacing::Replacing;
use byte_disk::NewFile;
use byte_place::OutPlace;
use clap::ArgMatches;
use cli_faults::CommandFiles;
use cli_open::{
    OpenedRegister, Replaced, explains, give_of, lock_new_shelf, next_file, open, open_all,
    open_inputs, open_register, open_shelf, open_to_read, parts, place, reserve, word,
};
use cli_words::CommandName;
use reg_commands::{
    FirstVersion, PieceFor, SeenFile, Whole, run_merge, run_merge_on, run_new, run_shelf,
};
use reg_engine::{CliFault, Refusal, ShelfProblem};
use reg_shelf::is_size;
use reg_take::merge::{Merged, merge_files, merge_shelf};
use std::fs::{self, File, OpenFile};
use std::mem::forget;
use std::rt::Files;

/// `new`.
pub fn new(rt: &HostRuntime, matches: &ArgMatches<'_>) -> Result<(), CliFault> {
    let replacing = Replacing::begin(rt, matches, "OUT", &[]);
    let mut place = place(rt, rt.alloc(), word(matches, "OUT"))?;
    let answer = run_new(rt.alloc(), &mut place);
    drop(place);
    answer?;
    replacing.say(rt);
    Ok(())
}

/// `merge`. Where sentences are on, the last one says what it brought.
pub fn merge(rt: &HostRuntime, matches: &ArgMatches<'_>) -> Result<(), CliFault> {
    if explains(matches) {
        return merge_and_tell(rt, matches);
    }
    let paths = matches.get_strs("FILE").unwrap_or(&[]);
    if matches.get_flag("shelf") {
        let mut disk = open_shelf(rt, word(matches, "OUT"))?;
        let mut sources = open_all(rt, rt.alloc(), 1, paths)?;
        return run_merge_on(rt.alloc(), &mut disk, &mut sources);
    }
    let mut place = place_over(rt, word(matches, "OUT"), paths)?;
    let out = Some(Replaced::named(rt, rt.alloc(), matches, "OUT")?);
    let mut sources = open_inputs(rt, rt.alloc(), paths, &out)?;
    let answer = run_merge(rt.alloc(), &mut sources, &mut place);
    drop(place);
    answer
}

// The memory of the registers is not freed, as in `run_merge`.
fn merge_and_tell(rt: &HostRuntime, matches: &ArgMatches<'_>) -> Result<(), CliFault> {
    let paths = matches.get_strs("FILE").unwrap_or(&[]);
    let replacing = Replacing::begin(rt, matches, "OUT", paths);
    let merged = merge_registers(rt, matches)?;
    replacing.say(rt);
    if let Ok(named) = CommandFiles::of(rt, CommandName::Merge, matches) {
        say_merged(rt, &merged, &named);
    }
    forget(merged);
    Ok(())
}

fn merge_registers(rt: &HostRuntime, matches: &ArgMatches<'_>) -> Result<Merged, CliFault> {
    let paths = matches.get_strs("FILE").unwrap_or(&[]);
    if matches.get_flag("shelf") {
        let mut disk = open_shelf(rt, word(matches, "OUT"))?;
        let mut sources = open_all(rt, rt.alloc(), 1, paths)?;
        return merge_shelf(rt.alloc(), &mut disk, &mut sources);
    }
    let mut place = place_over(rt, word(matches, "OUT"), paths)?;
    let out = Some(Replaced::named(rt, rt.alloc(), matches, "OUT")?);
    let mut sources = open_inputs(rt, rt.alloc(), paths, &out)?;
    let answer = merge_files(rt.alloc(), &mut sources, &mut place);
    drop(place);
    answer
}

// The place of OUT. If it is one of these files, which the command reads, its new file is made before they are opened.
fn place_over<'a>(
    rt: &'a HostRuntime,
    out: &'a str,
    inputs: &[&str],
) -> Result<OutPlace<'a>, CliFault> {
    let mut place = place(rt, rt.alloc(), out)?;
    reserve(rt, &mut place, out, inputs)?;
    Ok(place)
}

// Opens the register whose file is written to OUT.
fn open_to_give(
    rt: &HostRuntime,
    matches: &ArgMatches<'_>,
) -> Result<OpenedRegister<File>, CliFault> {
    let out = Some(Replaced::named(rt, rt.alloc(), matches, "OUT")?);
    open_register(rt, rt.alloc(), matches, "REG", &out)
}

/// `seen`.
pub fn seen(rt: &HostRuntime, matches: &ArgMatches<'_>) -> Result<(), CliFault> {
    let inputs = [word(matches, "REG")];
    let replacing = Replacing::begin(rt, matches, "OUT", &inputs);
    let place = place_over(rt, word(matches, "OUT"), &inputs)?;
    let register = open_to_give(rt, matches)?;
    give_of(rt, register, &mut SeenFile, place)?;
    replacing.say(rt);
    Ok(())
}

/// `piece`.
pub fn piece(rt: &HostRuntime, matches: &ArgMatches<'_>) -> Result<(), CliFault> {
    let inputs = [word(matches, "REG"), word(matches, "SEEN")];
    let replacing = Replacing::begin(rt, matches, "OUT", &inputs);
    let place = place_over(rt, word(matches, "OUT"), &inputs)?;
    let register = open_to_give(rt, matches)?;
    let mut summary = open(rt, next_file(&register), word(matches, "SEEN"))?;
    let mut command = PieceFor {
        summary: &mut summary,
    };
    give_of(rt, register, &mut command, place)?;
    replacing.say(rt);
    Ok(())
}

/// `downgrade`.
pub fn downgrade(rt: &HostRuntime, matches: &ArgMatches<'_>) -> Result<(), CliFault> {
    let inputs = [word(matches, "REG")];
    let replacing = Replacing::begin(rt, matches, "OUT", &inputs);
    let place = place_over(rt, word(matches, "OUT"), &inputs)?;
    let register = open_to_give(rt, matches)?;
    give_of(rt, register, &mut FirstVersion, place)?;
    replacing.say(rt);
    Ok(())
}

/// The size of the new shelf, if a shelf may have it.
pub fn shelf_size(matches: &ArgMatches<'_>) -> Option<u32> {
    let size = word(matches, "SIZE").parse::<u32>().ok()?;
    if is_size(size) { Some(size) } else { None }
}

/// `shelf`. A size that is not a number is refused like a size out of range.
pub fn shelf(rt: &HostRuntime, matches: &ArgMatches<'_>) -> Result<(), CliFault> {
    let Some(size) = shelf_size(matches) else {
        return Err(CliFault::Refused(Refusal::BadSize));
    };
    let path = word(matches, "NEW");
    let replacing = Replacing::begin(rt, matches, "NEW", &[]);
    // The lock ends with the file, when the shelf is whole.
    let _lock = lock_new_shelf(rt, path)?;
    run_shelf(rt.alloc(), &mut NewFile::new(rt, path), size)?;
    sync_folder(rt, path)?;
    replacing.say(rt);
    Ok(())
}

// Syncs the folder of a new shelf: otherwise a power cut could leave no shelf there. A folder that cannot be opened cannot be
// synced, which is no fault.
fn sync_folder<R: Files>(rt: &R, path: &str) -> Result<(), CliFault> {
    let (folder, _) = parts(path);
    match fs::open(rt, folder) {
        Ok(folder) if folder.sync_all().is_err() => {
            Err(CliFault::Shelf(ShelfProblem::DiskFailed))
        }
        _ => Ok(()),
    }
}

/// `unshelf`.
pub fn unshelf(rt: &HostRuntime, matches: &ArgMatches<'_>) -> Result<(), CliFault> {
    let replacing = Replacing::begin(rt, matches, "OUT", &[word(matches, "SHELF")]);
    let disk = open_to_read(rt, word(matches, "SHELF"))?;
    let place = place(rt, rt.alloc(), word(matches, "OUT"))?;
    give_of(rt, OpenedRegister::Shelf(disk), &mut Whole, place)?;
    replacing.say(rt);
    Ok(())
}
