//! Files of pieces, read from slices and sources, and written to vectors and sinks.

ghost use Rattle.std.specs.Prelude.{◌≡◌, ◌<◌, ◌^◌, ◌↔◌, ◌⊎◌, true, false, length, Ok, Err, OnOk, IfOk, IfErr};
ghost use Rattle.reg_op.specs.Set as set;
ghost use Rattle.reg_op.specs.Ids.{Id};
ghost use Rattle.reg_op.specs.Operations.{Op as Operation};
ghost use Rattle.reg_op.specs.Lists.{has, ById};
ghost use Rattle.reg_op.specs.Pieces.{Piece as PieceValue};
ghost use Rattle.reg_file.specs.Layout.{piece_file};
ghost use Rattle.reg_file.specs.Readers.{StopsIn};
ghost use Rattle.reg_file.specs.Reading.{based, piece, version_in};
ghost use Rattle.reg_file.specs.Steps.{EndsPiece, ReadsBased, ReadsPiece, StopsAtEnd};
ghost use Rattle.reg_file.specs.Files.{FindsPiece, HoldsPiece, IsPieceReadFault, IsPieceReadFromFault, IsPieceTooLarge, IsPieceWriteFault, ReadsAsPiece, WritesPiece};

use crate::block::block_of;
use crate::contents::{seen_and_ops_of, stop_of};
use crate::fault::{FileFault, ReadFileFault, Stop, WriteFileFault};
use crate::fields::{head_of, refused};
use crate::heads::{MAX_FILE, PIECE, VERSION, version_in};
use crate::length::length_of_piece;
use crate::op_offset::OpOffset;
use crate::ranges::seen_of;
use crate::spelling::{put_head, put_ops, put_ranges};
use byte_io::{InFault, Sink, Source, read_up_to, write_all};
use bytes::Bytes;
use reg_op::Op;
use reg_state::{Piece, Register, Run, Seen};
use std::alloc::{AllocError, Global};

// After all operations: none is redundant, and nothing follows.
fn piece_of(
    alloc: Global,
    ops: Vec<Op>,
    basis: Seen,
    seen: Seen,
    places: &[OpOffset],
    rest: &[u8],
) -> Result<Piece, Stop>
    requires by_id { ById ops.items }
    requires are_seen { (o : Operation) → has ops.items o ≡ true → set.contains seen o.id ≡ true }
    requires apart { (i : Id) → set.contains seen i ≡ true → set.contains basis i ≡ false }
    ensures ok { IfOk result (λ p. EndsPiece ops.items basis seen rest.now p) }
    ensures err { IfErr result (StopsAtEnd ops.items places.now rest.now) }
{
    let piece = match Piece::from_parts(alloc, ops, basis, seen) {
        Ok(piece) => piece,
        Err(fault) => return Err(stop_of(fault, places)),
    };
    if !rest.is_empty() {
        return Err(refused(FileFault::Trailing, rest.len()));
    }
    let _kept = piece.ops();
    Ok(piece)
}

// The basis, and the part outside it. Nothing follows.
fn based_of(
    alloc: Global,
    block: &Bytes,
    known: &[Register],
    version: u8,
    bytes: &[u8],
) -> Result<Piece, Stop>
    ensures ok { IfOk result (λ p. ReadsBased version bytes.now p) }
    ensures err { IfErr result (StopsIn (based version) bytes.now) }
{
    let (basis, rest) = match seen_of(alloc, &Seen::new(alloc), bytes) {
        Ok(read) => read,
        Err(stop) => return Err(stop),
    };
    let (ops, places, seen, rest) = match seen_and_ops_of(
        alloc, block, known, version, &basis, rest,
    ) {
        Ok(read) => read,
        Err(stop) => return Err(stop),
    };
    match piece_of(alloc, ops, basis, seen, &places, rest) {
        Ok(piece) => Ok(piece),
        Err(stop) => Err(stop),
    }
}

fn read_in(
    alloc: Global,
    block: &Bytes,
    known: &[Register],
    version: u8,
    bytes: &[u8],
) -> Result<Piece, Stop>
    ensures ok { IfOk result (λ p. ReadsPiece version bytes.now p) }
    ensures err { IfErr result (StopsIn (piece version) bytes.now) }
{
    let (_, rest) = match head_of(version, PIECE, bytes) {
        Ok(read) => read,
        Err(stop) => return Err(stop),
    };
    match based_of(alloc, block, known, version, rest) {
        Ok(piece) => Ok(piece),
        Err(stop) => Err(stop),
    }
}

// A whole file, in the version that the bytes state.
fn read_all(alloc: Global, block: &Bytes, known: &[Register], bytes: &[u8]) -> Result<Piece, Stop>
    ensures ok { IfOk result (λ p. ReadsPiece (version_in bytes.now) bytes.now p) }
    ensures err { IfErr result (StopsIn (piece (version_in bytes.now)) bytes.now) }
{
    read_in(alloc, block, known, version_in(bytes), bytes)
}

/// Reads a piece from the bytes of a file. Its texts are copied.
pub fn read_piece_bytes(alloc: Global, bytes: &[u8]) -> Result<Piece, ReadFileFault>
    // The bytes are a file of the result.
    ensures found { IfOk result (λ p. ReadsAsPiece bytes.now p) }
    // A piece's file is read, unless memory runs out.
    ensures only { (p : PieceValue) → ReadsAsPiece bytes.now p → (result ≡ Ok p) ⊎ (result ≡ Err ReadFileFault.Memory) }
    // The fault is the first one.
    ensures fault { IfErr result (IsPieceReadFault bytes.now) }
{
    read_piece_within(alloc, &Bytes::new(), &[], bytes)
}

/// The same with known registers and with a block, as in `read_within`.
pub fn read_piece_within(
    alloc: Global,
    block: &Bytes,
    known: &[Register],
    bytes: &[u8],
) -> Result<Piece, ReadFileFault>
    ensures found { IfOk result (λ p. ReadsAsPiece bytes.now p) }
    ensures only { (p : PieceValue) → ReadsAsPiece bytes.now p → (result ≡ Ok p) ⊎ (result ≡ Err ReadFileFault.Memory) }
    ensures fault { IfErr result (IsPieceReadFault bytes.now) }
{
    if bytes.len() > MAX_FILE {
        return Err(ReadFileFault::TooLarge);
    }
    match read_all(alloc, block, known, bytes) {
        Ok(piece) => Ok(piece),
        Err(Stop::Memory) => Err(ReadFileFault::Memory),
        Err(Stop::Refused(first)) => Err(ReadFileFault::File {
            fault: first.fault,
            place: bytes.len().saturating_sub(first.left),
        }),
    }
}

// The same for a file that its definitions may share.
fn read_owned(alloc: Global, known: &[Register], bytes: Vec<u8>) -> Result<Piece, ReadFileFault>
    ensures found { IfOk result (λ p. ReadsAsPiece bytes.items p) }
    ensures fault { IfErr result (IsPieceReadFault bytes.items) }
{
    let Ok(file) = Bytes::from_vec(bytes) else {
        return Err(ReadFileFault::Memory);
    };
    let Ok(block) = block_of(known, &file) else {
        return Err(ReadFileFault::Memory);
    };
    match read_piece_within(alloc, &block, known, file.as_slice()) {
        Ok(piece) => Ok(piece),
        Err(fault) => Err(fault),
    }
}

/// Reads a piece from a source, however the reads are split. Reading stops when the file exceeds the limit.
pub fn read_piece<S: Source>(alloc: Global, source: &mut S) -> Result<Piece, ReadFileFault>
    ensures found { IfOk result (FindsPiece (S.state source.old) (S.state source.new)) }
    ensures fault { IfErr result (IsPieceReadFromFault (S.state source.old) (S.state source.new)) }
{
    read_piece_beside(alloc, &[], source)
}

/// The same with known registers: if one of them has the same definition under the same id, it is shared and not read
/// again.
pub fn read_piece_beside<S: Source>(
    alloc: Global,
    known: &[Register],
    source: &mut S,
) -> Result<Piece, ReadFileFault>
    ensures found { IfOk result (FindsPiece (S.state source.old) (S.state source.new)) }
    ensures fault { IfErr result (IsPieceReadFromFault (S.state source.old) (S.state source.new)) }
{
    let bytes = match read_up_to(alloc, source, MAX_FILE + 1) {
        Ok(bytes) => bytes,
        Err(InFault::ReadFailed(n)) => return Err(ReadFileFault::ReadFailed(n)),
        Err(InFault::Memory) => return Err(ReadFileFault::Memory),
    };
    match read_owned(alloc, known, bytes) {
        Ok(piece) => Ok(piece),
        Err(fault) => Err(fault),
    }
}

// The file of a basis, and of operations and runs outside it, in one allocation of its size.
fn spell_piece(
    alloc: Global,
    basis: &[Run],
    ops: &[Op],
    runs: &[Run],
    size: usize,
) -> Result<Vec<u8>, AllocError>
    requires basis { length basis.now < 2 ^ 32 }
    requires ops { length ops.now < 2 ^ 32 }
    requires runs { length runs.now < 2 ^ 32 }
    ensures { IfOk result (λ out. out.items ≡ piece_file 2 basis.now ops.now runs.now) }
{
    let mut out = Vec::with_capacity(alloc, size)?;
    put_head(&mut out, VERSION, PIECE)?;
    put_ranges(&mut out, basis)?;
    put_ranges(&mut out, runs)?;
    put_ops(&mut out, VERSION, ops)?;
    Ok(out)
}

/// The bytes of the piece's file. A file that exceeds the limit is reported before anything is allocated.
pub fn write_piece_bytes(alloc: Global, piece: &Piece) -> Result<Vec<u8>, WriteFileFault>
    ensures held { IfOk result (λ v. HoldsPiece v.items piece.now) }
    ensures large { (result ≡ Err WriteFileFault.TooLarge) ↔ IsPieceTooLarge piece.now }
    ensures memory { IfErr result (λ f. (f ≡ WriteFileFault.TooLarge) ⊎ (f ≡ WriteFileFault.Memory)) }
{
    let basis = piece.basis().runs();
    let ops = piece.ops();
    let runs = piece.seen().runs();
    let Some(size) = length_of_piece(basis, ops, runs) else {
        return Err(WriteFileFault::TooLarge);
    };
    match spell_piece(alloc, basis, ops, runs, size) {
        Ok(out) => Ok(out),
        Err(_) => Err(WriteFileFault::Memory),
    }
}

/// Writes the piece's file, and nothing else.
pub fn write_piece<K: Sink>(
    alloc: Global,
    piece: &Piece,
    sink: &mut K,
) -> Result<(), WriteFileFault>
    ensures ok { OnOk result (WritesPiece piece.now (K.state sink.old) (K.state sink.new)) }
    ensures large { (result ≡ Err WriteFileFault.TooLarge) ↔ IsPieceTooLarge piece.now }
    ensures fault { IfErr result (IsPieceWriteFault piece.now (K.state sink.old) (K.state sink.new)) }
{
    let bytes = match write_piece_bytes(alloc, piece) {
        Ok(bytes) => bytes,
        Err(fault) => return Err(fault),
    };
    match write_all(sink, &bytes) {
        Ok(()) => Ok(()),
        Err(fault) => Err(WriteFileFault::WriteFailed(fault.written)),
    }
}
