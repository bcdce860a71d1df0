//! Files of registers and of pieces, read from slices and sources.

ghost use Rattle.std.specs.Prelude.{◌≡◌, ◌⊎◌, Ok, Err, IfOk, IfErr};
ghost use Rattle.reg_file.specs.declared.parts.Part.{Part as PartValue};
ghost use Rattle.reg_file.specs.Reading.{says_piece};
ghost use Rattle.reg_file.specs.Parts.{FindsPart, IsPartReadFault, IsPartReadFromFault, ReadsAsPart};

use crate::block::block_of;
use crate::fault::ReadFileFault;
use crate::heads::{MAX_FILE, PIECE};
use crate::pieces::read_piece_within;
use crate::reading::read_within;
use byte_io::{InFault, Source, read_up_to};
use bytes::Bytes;
use reg_state::{Piece, Register};
use std::alloc::Global;

/// A register, or a piece of one: both can be joined to a register.
#[derive(Drop)]
pub enum Part {
    Register(Register),
    Piece(Piece),
}

fn says_piece(bytes: &[u8]) -> bool
    ensures { result ≡ says_piece bytes.now }
{
    match bytes.get(5) {
        Some(kind) => *kind == PIECE,
        None => false,
    }
}

/// Reads a register or a piece from the bytes of a file: a piece if the kind byte says so. Its texts are copied.
pub fn read_part_bytes(alloc: Global, bytes: &[u8]) -> Result<Part, ReadFileFault>
    // The bytes are a file of the result.
    ensures found { IfOk result (λ part. ReadsAsPart bytes.now part) }
    // The file of a register or a piece is read, unless memory runs out.
    ensures only { (part : PartValue) → ReadsAsPart bytes.now part → (result ≡ Ok part) ⊎ (result ≡ Err ReadFileFault.Memory) }
    // The fault is that of a piece if the bytes say that they are one, otherwise that of a register.
    ensures fault { IfErr result (IsPartReadFault bytes.now) }
{
    read_part_within(alloc, &Bytes::new(), &[], bytes)
}

// The same with known registers and with a block, as in `read_within`.
fn read_part_within(
    alloc: Global,
    block: &Bytes,
    known: &[Register],
    bytes: &[u8],
) -> Result<Part, ReadFileFault>
    ensures found { IfOk result (λ part. ReadsAsPart bytes.now part) }
    ensures only { (part : PartValue) → ReadsAsPart bytes.now part → (result ≡ Ok part) ⊎ (result ≡ Err ReadFileFault.Memory) }
    ensures fault { IfErr result (IsPartReadFault bytes.now) }
{
    if says_piece(bytes) {
        return match read_piece_within(alloc, block, known, bytes) {
            Ok(piece) => Ok(Part::Piece(piece)),
            Err(fault) => Err(fault),
        };
    }
    match read_within(alloc, block, known, bytes) {
        Ok(register) => Ok(Part::Register(register)),
        Err(fault) => Err(fault),
    }
}

// The same for a file that its definitions may share.
fn read_owned(alloc: Global, known: &[Register], bytes: Vec<u8>) -> Result<Part, ReadFileFault>
    ensures found { IfOk result (λ part. ReadsAsPart bytes.items part) }
    ensures fault { IfErr result (IsPartReadFault bytes.items) }
{
    let Ok(file) = Bytes::from_vec(bytes) else {
        return Err(ReadFileFault::Memory);
    };
    let Ok(block) = block_of(known, &file) else {
        return Err(ReadFileFault::Memory);
    };
    match read_part_within(alloc, &block, known, file.as_slice()) {
        Ok(part) => Ok(part),
        Err(fault) => Err(fault),
    }
}

/// Reads a register or a piece from a source, however the reads are split. Reading stops when the file exceeds the
/// limit.
pub fn read_part<S: Source>(alloc: Global, source: &mut S) -> Result<Part, ReadFileFault>
    ensures found { IfOk result (FindsPart (S.state source.old) (S.state source.new)) }
    ensures fault { IfErr result (IsPartReadFromFault (S.state source.old) (S.state source.new)) }
{
    read_part_beside(alloc, &[], source)
}

/// The same with known registers: if one of them has the same definition under the same id, it is shared and not read
/// again.
pub fn read_part_beside<S: Source>(
    alloc: Global,
    known: &[Register],
    source: &mut S,
) -> Result<Part, ReadFileFault>
    ensures found { IfOk result (FindsPart (S.state source.old) (S.state source.new)) }
    ensures fault { IfErr result (IsPartReadFromFault (S.state source.old) (S.state source.new)) }
{
    let bytes = match read_up_to(alloc, source, MAX_FILE + 1) {
        Ok(bytes) => bytes,
        Err(InFault::ReadFailed(n)) => return Err(ReadFileFault::ReadFailed(n)),
        Err(InFault::Memory) => return Err(ReadFileFault::Memory),
    };
    match read_owned(alloc, known, bytes) {
        Ok(part) => Ok(part),
        Err(fault) => Err(fault),
    }
}
