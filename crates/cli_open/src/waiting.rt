//! The new file of OUT, if a command reads OUT too. It is made before OUT is opened, so commands on one file go one after another.
use byte_out::FileId;
use byte_place::OutPlace;
use reg_engine::{CliFault, OutFault};
use std::env::{self, VarError};
use std::time::Duration;

/// For how many seconds a command waits for another one that writes the same file.
const WAIT: &str = "CRSREG_WAIT";

/// The seconds if the variable is not set, or is no whole number.
const SECONDS: u32 = 5;

/// How long a command waits for another one that writes the same file.
pub fn patience(rt: &HostRuntime) -> Result<Duration, CliFault> {
    let seconds = match env::var(rt, WAIT) {
        Ok(word) => word.parse::<u32>().unwrap_or(SECONDS),
        Err(VarError::OutOfMemory) => return Err(CliFault::Memory),
        Err(_) => SECONDS,
    };
    Ok(Duration::from_secs(u64::from(seconds)))
}

/// Makes the new file of OUT now, if OUT is one of these files, which the command opens later. Other commands that would change it
/// wait meanwhile, and this one waits for them.
pub fn reserve(
    rt: &HostRuntime,
    place: &mut OutPlace<'_>,
    out: &str,
    inputs: &[&str],
) -> Result<(), CliFault> {
    if !is_among(rt, out, inputs) {
        return Ok(());
    }
    let wait = patience(rt)?;
    match place.reserve(wait) {
        Ok(()) => Ok(()),
        Err(_) => Err(CliFault::Out(OutFault::NewExists)),
    }
}

/// Whether one of the paths leads to the file at this path.
pub fn is_among(rt: &HostRuntime, path: &str, others: &[&str]) -> bool {
    for other in others {
        if *other == path || is_same_file(rt, path, *other) {
            return true;
        }
    }
    false
}

fn is_same_file(rt: &HostRuntime, path: &str, other: &str) -> bool {
    match FileId::at(rt, path) {
        Some(file) => FileId::at(rt, other) == Some(file),
        None => false,
    }
}
