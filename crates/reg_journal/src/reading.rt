//! Office files, read from texts and sources.

ghost use Rattle.std.specs.Prelude.{◌≡◌, ◌⊎◌, ◌↔◌, Ok, Err, IfOk, IfErr, IsTrue};
ghost use Rattle.std.specs.Ordering.{is_eq};
ghost use Rattle.reg_op.specs.Contents.{Content};
ghost use Rattle.reg_state.specs.Runs.{replica_cmp};
ghost use Rattle.reg_file.specs.Files.{Holds};
ghost use Rattle.reg_file.specs.Reading.{says_first};
ghost use Rattle.reg_journal.specs.Journal.{Journal, numbers};
ghost use Rattle.reg_journal.specs.Text.{FindsOffice, HoldsOffice, IsUnfound, IsUnread};
ghost use Rattle.reg_journal.specs.Runs.{from_first, runs_to};

use crate::fault::OpenFault;
use crate::head::read_head;
use crate::office_file::OfficeFile;
use byte_io::{InFault, Source, read_up_to};
use reg_file::{MAX_FILE, ReadFileFault, read_bytes};
use reg_state::{Register, Run, Seen};
use std::alloc::Global;
use uuid::Uuid;

/// Reads an office file from its text.
pub fn read_office_bytes(alloc: Global, text: &[u8]) -> Result<OfficeFile, OpenFault>
    ensures found { IfOk result (HoldsOffice text.now) }
    ensures only { (f : Journal) → HoldsOffice text.now f → (result ≡ Ok f) ⊎ (result ≡ Err OpenFault.Memory) }
    ensures fault { IfErr result (IsUnread text.now) }
{
    if text.len() > MAX_FILE {
        return Err(OpenFault::TooLarge);
    }
    let Some((head, file)) = read_head(text) else {
        return Err(OpenFault::NotOffice);
    };
    let made = match read_made(alloc, file) {
        Ok(made) => made,
        Err(fault) => return Err(fault),
    };
    if head.stood > head.last {
        return Err(OpenFault::NotOffice);
    }
    if !has_numbers(made.seen(), head.replica, head.last) {
        return Err(OpenFault::NotOffice);
    }
    Ok(OfficeFile {
        replica: head.replica,
        last: head.last,
        stood: head.stood,
        made,
    })
}

/// Reads an office file from a source. Reading stops when the file exceeds the limit.
pub fn read_office<S: Source>(alloc: Global, source: &mut S) -> Result<OfficeFile, OpenFault>
    ensures found { IfOk result (FindsOffice (S.state source.old) (S.state source.new)) }
    ensures fault { IfErr result (IsUnfound (S.state source.old) (S.state source.new)) }
{
    let text = match read_up_to(alloc, source, MAX_FILE + 1) {
        Ok(text) => text,
        Err(InFault::ReadFailed(n)) => return Err(OpenFault::ReadFailed(n)),
        Err(InFault::Memory) => return Err(OpenFault::Memory),
    };
    match read_office_bytes(alloc, &text) {
        Ok(file) => Ok(file),
        Err(fault) => Err(fault),
    }
}

// The register in an office file, which has the current version.
fn read_made(alloc: Global, file: &[u8]) -> Result<Register, OpenFault>
    ensures found { IfOk result (Holds file.now) }
    ensures none { result ≡ Err OpenFault.NotOffice → (x : Content) → ¬ (Holds file.now x) }
    ensures fault { IfErr result (λ f. (f ≡ OpenFault.NotOffice) ⊎ (f ≡ OpenFault.Memory)) }
{
    if says_first(file) {
        return Err(OpenFault::NotOffice);
    }
    match read_bytes(alloc, file) {
        Ok(register) => Ok(register),
        Err(ReadFileFault::Memory) => Err(OpenFault::Memory),
        Err(_) => Err(OpenFault::NotOffice),
    }
}

// Whether the bytes say that they are of the version without notes.
fn says_first(bytes: &[u8]) -> bool
    ensures { result ≡ says_first bytes.now }
{
    match bytes.get(4) {
        Some(version) => *version == 1,
        None => false,
    }
}

// Whether exactly the numbers from 1 to the last one of the office were seen.
fn has_numbers(seen: &Seen, replica: Uuid, last: u32) -> bool
    ensures { IsTrue result ↔ (seen.now ≡ numbers replica last) }
{
    are_numbers(seen.runs(), replica, last)
}

fn are_numbers(runs: &[Run], replica: Uuid, last: u32) -> bool
    ensures { IsTrue result ↔ (runs.now ≡ runs_to replica last) }
{
    let Some((run, others)) = runs.split_first() else {
        return last == 0;
    };
    last != 0 && others.is_empty() && is_from_first(run, replica, last)
}

fn is_from_first(run: &Run, replica: Uuid, last: u32) -> bool
    ensures { IsTrue result ↔ (run.now ≡ from_first replica last) }
{
    run.low == 1 && run.high == last && is_replica(&run.replica, replica)
}

fn is_replica(one: &Uuid, other: Uuid) -> bool
    ensures { result ≡ is_eq (replica_cmp one.now other) }
{
    one.cmp(&other).is_eq()
}
