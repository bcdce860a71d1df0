//! Files of summaries, read from slices and sources, and written to vectors and sinks.

ghost use Rattle.std.specs.Prelude.{◌≡◌, ◌<◌, ◌^◌, ◌↔◌, ◌⊎◌, [], length, Ok, Err, OnOk, IfOk, IfErr};
ghost use Rattle.reg_op.specs.Ids.{Ids};
ghost use Rattle.reg_file.specs.Layout.{seen_file};
ghost use Rattle.reg_file.specs.Readers.{StopsIn};
ghost use Rattle.reg_file.specs.Reading.{ended, summary, version_in};
ghost use Rattle.reg_file.specs.Steps.{ReadsSummary};
ghost use Rattle.reg_file.specs.Files.{FindsSeen, HoldsSeen, IsSeenReadFault, IsSeenReadFromFault, IsSeenTooLarge, IsSeenWriteFault, ReadsAsSeen, WritesSeen};

use crate::fault::{FileFault, ReadFileFault, Stop, WriteFileFault};
use crate::fields::{head_of, refused};
use crate::heads::{MAX_FILE, SEEN, VERSION, version_in};
use crate::length::length_of_seen;
use crate::ranges::seen_of;
use crate::spelling::{put_head, put_ranges};
use byte_io::{InFault, Sink, Source, read_up_to, write_all};
use reg_state::{Run, Seen};
use std::alloc::{AllocError, Global};

// Nothing follows.
fn end_of(rest: &[u8]) -> Result<(), Stop>
    ensures ok { OnOk result (rest.now ≡ []) }
    ensures err { IfErr result (StopsIn ended rest.now) }
{
    if !rest.is_empty() {
        return Err(refused(FileFault::Trailing, rest.len()));
    }
    Ok(())
}

fn read_in(alloc: Global, version: u8, bytes: &[u8]) -> Result<Seen, Stop>
    ensures ok { IfOk result (λ seen. ReadsSummary version bytes.now seen) }
    ensures err { IfErr result (StopsIn (summary version) bytes.now) }
{
    let (_, rest) = match head_of(version, SEEN, bytes) {
        Ok(read) => read,
        Err(stop) => return Err(stop),
    };
    let (seen, rest) = match seen_of(alloc, &Seen::new(alloc), rest) {
        Ok(read) => read,
        Err(stop) => return Err(stop),
    };
    match end_of(rest) {
        Ok(()) => {
            let _first = seen.run(0);
            Ok(seen)
        }
        Err(stop) => Err(stop),
    }
}

// A whole file, in the version that the bytes state.
fn read_all(alloc: Global, bytes: &[u8]) -> Result<Seen, Stop>
    ensures ok { IfOk result (λ seen. ReadsSummary (version_in bytes.now) bytes.now seen) }
    ensures err { IfErr result (StopsIn (summary (version_in bytes.now)) bytes.now) }
{
    read_in(alloc, version_in(bytes), bytes)
}

/// Reads the seen ids from the bytes of a summary.
pub fn read_seen_bytes(alloc: Global, bytes: &[u8]) -> Result<Seen, ReadFileFault>
    // The bytes are a file of the result.
    ensures found { IfOk result (λ seen. ReadsAsSeen bytes.now seen) }
    // A summary is read, unless memory runs out.
    ensures only { (ids : Ids) → ReadsAsSeen bytes.now ids → (result ≡ Ok ids) ⊎ (result ≡ Err ReadFileFault.Memory) }
    // The fault is the first one.
    ensures fault { IfErr result (IsSeenReadFault bytes.now) }
{
    if bytes.len() > MAX_FILE {
        return Err(ReadFileFault::TooLarge);
    }
    match read_all(alloc, bytes) {
        Ok(seen) => Ok(seen),
        Err(Stop::Memory) => Err(ReadFileFault::Memory),
        Err(Stop::Refused(first)) => Err(ReadFileFault::File {
            fault: first.fault,
            place: bytes.len().saturating_sub(first.left),
        }),
    }
}

/// Reads the seen ids from a source, however the reads are split. Reading stops when the file exceeds the limit.
pub fn read_seen<S: Source>(alloc: Global, source: &mut S) -> Result<Seen, ReadFileFault>
    ensures found { IfOk result (FindsSeen (S.state source.old) (S.state source.new)) }
    ensures fault { IfErr result (IsSeenReadFromFault (S.state source.old) (S.state source.new)) }
{
    let bytes = match read_up_to(alloc, source, MAX_FILE + 1) {
        Ok(bytes) => bytes,
        Err(InFault::ReadFailed(n)) => return Err(ReadFileFault::ReadFailed(n)),
        Err(InFault::Memory) => return Err(ReadFileFault::Memory),
    };
    match read_seen_bytes(alloc, &bytes) {
        Ok(seen) => Ok(seen),
        Err(fault) => Err(fault),
    }
}

// The file of the seen runs, in one allocation of its size.
fn spell_seen(alloc: Global, runs: &[Run], size: usize) -> Result<Vec<u8>, AllocError>
    requires { length runs.now < 2 ^ 32 }
    ensures { IfOk result (λ out. out.items ≡ seen_file 2 runs.now) }
{
    let mut out = Vec::with_capacity(alloc, size)?;
    put_head(&mut out, VERSION, SEEN)?;
    put_ranges(&mut out, runs)?;
    Ok(out)
}

/// The bytes of the summary of the seen ids. A file that exceeds the limit is reported before anything is allocated.
pub fn write_seen_bytes(alloc: Global, seen: &Seen) -> Result<Vec<u8>, WriteFileFault>
    ensures held { IfOk result (λ v. HoldsSeen v.items seen.now) }
    ensures large { (result ≡ Err WriteFileFault.TooLarge) ↔ IsSeenTooLarge seen.now }
    ensures memory { IfErr result (λ f. (f ≡ WriteFileFault.TooLarge) ⊎ (f ≡ WriteFileFault.Memory)) }
{
    let _first = seen.run(0);
    let runs = seen.runs();
    let Some(size) = length_of_seen(runs) else {
        return Err(WriteFileFault::TooLarge);
    };
    match spell_seen(alloc, runs, size) {
        Ok(out) => Ok(out),
        Err(_) => Err(WriteFileFault::Memory),
    }
}

/// Writes the summary of the seen ids, and nothing else.
pub fn write_seen<K: Sink>(alloc: Global, seen: &Seen, sink: &mut K) -> Result<(), WriteFileFault>
    ensures ok { OnOk result (WritesSeen seen.now (K.state sink.old) (K.state sink.new)) }
    ensures large { (result ≡ Err WriteFileFault.TooLarge) ↔ IsSeenTooLarge seen.now }
    ensures fault { IfErr result (IsSeenWriteFault seen.now (K.state sink.old) (K.state sink.new)) }
{
    let bytes = match write_seen_bytes(alloc, seen) {
        Ok(bytes) => bytes,
        Err(fault) => return Err(fault),
    };
    match write_all(sink, &bytes) {
        Ok(()) => Ok(()),
        Err(fault) => Err(WriteFileFault::WriteFailed(fault.written)),
    }
}
