//! Files of registers, read from slices and sources.

ghost use Rattle.std.specs.Prelude.{◌≡◌, ◌⊎◌, Ok, Err, IfOk, IfErr};
ghost use Rattle.reg_op.specs.Contents.{Content};
ghost use Rattle.reg_file.specs.Readers.{StopsIn};
ghost use Rattle.reg_file.specs.Reading.{register, version_in};
ghost use Rattle.reg_file.specs.Steps.{ReadsContent};
ghost use Rattle.reg_file.specs.Files.{Finds, IsReadFault, IsReadFromFault, ReadsAs};

use crate::block::block_of;
use crate::contents::kept_of;
use crate::fault::{ReadFileFault, Stop};
use crate::fields::head_of;
use crate::heads::{MAX_FILE, REGISTER, version_in};
use byte_io::{InFault, Source, read_up_to};
use bytes::Bytes;
use reg_state::{Register, Seen};
use std::alloc::Global;

fn read_in(
    alloc: Global,
    block: &Bytes,
    known: &[Register],
    version: u8,
    bytes: &[u8],
) -> Result<Register, Stop>
    ensures ok { IfOk result (λ r. ReadsContent version bytes.now r) }
    ensures err { IfErr result (StopsIn (register version) bytes.now) }
{
    let (_, rest) = match head_of(version, REGISTER, bytes) {
        Ok(read) => read,
        Err(stop) => return Err(stop),
    };
    match kept_of(alloc, block, known, version, &Seen::new(alloc), rest) {
        Ok(register) => Ok(register),
        Err(stop) => Err(stop),
    }
}

// A whole file, in the version that the bytes state.
fn read_all(
    alloc: Global,
    block: &Bytes,
    known: &[Register],
    bytes: &[u8],
) -> Result<Register, Stop>
    ensures ok { IfOk result (λ r. ReadsContent (version_in bytes.now) bytes.now r) }
    ensures err { IfErr result (StopsIn (register (version_in bytes.now)) bytes.now) }
{
    read_in(alloc, block, known, version_in(bytes), bytes)
}

/// Reads a register from the bytes of a file. Its texts are copied.
pub fn read_bytes(alloc: Global, bytes: &[u8]) -> Result<Register, ReadFileFault>
    // The bytes are a file of the result.
    ensures found { IfOk result (λ r. ReadsAs bytes.now r) }
    // The file of a content is read, unless memory runs out.
    ensures only { (x : Content) → ReadsAs bytes.now x → (result ≡ Ok x) ⊎ (result ≡ Err ReadFileFault.Memory) }
    // The fault is the first one.
    ensures fault { IfErr result (IsReadFault bytes.now) }
{
    read_within(alloc, &Bytes::new(), &[], bytes)
}

/// The same with known registers, and with a block. If a known register has the same definition under the same id, it is shared
/// and not read again. If the block is the file, each other text is a part of it.
pub fn read_within(
    alloc: Global,
    block: &Bytes,
    known: &[Register],
    bytes: &[u8],
) -> Result<Register, ReadFileFault>
    ensures found { IfOk result (λ r. ReadsAs bytes.now r) }
    ensures only { (x : Content) → ReadsAs bytes.now x → (result ≡ Ok x) ⊎ (result ≡ Err ReadFileFault.Memory) }
    ensures fault { IfErr result (IsReadFault bytes.now) }
{
    if bytes.len() > MAX_FILE {
        return Err(ReadFileFault::TooLarge);
    }
    match read_all(alloc, block, known, bytes) {
        Ok(register) => Ok(register),
        Err(Stop::Memory) => Err(ReadFileFault::Memory),
        Err(Stop::Refused(first)) => Err(ReadFileFault::File {
            fault: first.fault,
            place: bytes.len().saturating_sub(first.left),
        }),
    }
}

// The same for a file that its definitions may share.
fn read_owned(alloc: Global, known: &[Register], bytes: Vec<u8>) -> Result<Register, ReadFileFault>
    ensures found { IfOk result (λ r. ReadsAs bytes.items r) }
    ensures fault { IfErr result (IsReadFault bytes.items) }
{
    let Ok(file) = Bytes::from_vec(bytes) else {
        return Err(ReadFileFault::Memory);
    };
    let Ok(block) = block_of(known, &file) else {
        return Err(ReadFileFault::Memory);
    };
    match read_within(alloc, &block, known, file.as_slice()) {
        Ok(register) => Ok(register),
        Err(fault) => Err(fault),
    }
}

/// Reads a register from a source, however the reads are split. Reading stops when the file exceeds the limit.
pub fn read_register<S: Source>(alloc: Global, source: &mut S) -> Result<Register, ReadFileFault>
    ensures found { IfOk result (Finds (S.state source.old) (S.state source.new)) }
    ensures fault { IfErr result (IsReadFromFault (S.state source.old) (S.state source.new)) }
{
    read_register_beside(alloc, &[], source)
}

/// The same with known registers: if one of them has the same definition under the same id, it is shared and not read
/// again.
pub fn read_register_beside<S: Source>(
    alloc: Global,
    known: &[Register],
    source: &mut S,
) -> Result<Register, ReadFileFault>
    ensures found { IfOk result (Finds (S.state source.old) (S.state source.new)) }
    ensures fault { IfErr result (IsReadFromFault (S.state source.old) (S.state source.new)) }
{
    let bytes = match read_up_to(alloc, source, MAX_FILE + 1) {
        Ok(bytes) => bytes,
        Err(InFault::ReadFailed(n)) => return Err(ReadFileFault::ReadFailed(n)),
        Err(InFault::Memory) => return Err(ReadFileFault::Memory),
    };
    match read_owned(alloc, known, bytes) {
        Ok(register) => Ok(register),
        Err(fault) => Err(fault),
    }
}
