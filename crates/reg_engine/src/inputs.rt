//! Registers, summaries and pieces, read from files.

ghost use Rattle.std.specs.Prelude.{◌≡◌, ◌++◌, ◌∷◌, [], map, IfOk, OnOk, IfErr};
ghost use Rattle.reg_file.specs.Files.{Finds, FindsSeen};
ghost use Rattle.reg_file.specs.Parts.{FindsPart};
ghost use Rattle.reg_engine.specs.Inputs.{IsUnread, IsSummaryUnread, IsPartUnread, AreUnread, GiveParts, GivePartsAfter, registers, pieces};

use crate::fault::CliFault;
use byte_io::Source;
use reg_file::{Part, read_part_beside, read_register, read_seen};
use reg_state::{Piece, Register, Seen};
use std::alloc::{AllocError, Global};

/// Reads the register in the file with this number.
pub fn read_file<S: Source>(
    alloc: Global,
    number: usize,
    source: &mut S,
) -> Result<Register, CliFault>
    ensures found { IfOk result (Finds (S.state source.old) (S.state source.new)) }
    ensures fault { IfErr result (IsUnread number (S.state source.old) (S.state source.new)) }
{
    match read_register(alloc, source) {
        Ok(register) => Ok(register),
        Err(fault) => Err(CliFault::of_file(number, fault)),
    }
}

/// Reads the summary in the file with this number.
pub fn read_summary<S: Source>(
    alloc: Global,
    number: usize,
    source: &mut S,
) -> Result<Seen, CliFault>
    ensures found { IfOk result (FindsSeen (S.state source.old) (S.state source.new)) }
    ensures fault { IfErr result (IsSummaryUnread number (S.state source.old) (S.state source.new)) }
{
    match read_seen(alloc, source) {
        Ok(seen) => Ok(seen),
        Err(fault) => Err(CliFault::of_file(number, fault)),
    }
}

// Reads the register or the piece in the file with this number. Definitions that a known register has are not read again.
fn read_next<S: Source>(
    alloc: Global,
    known: &[Register],
    number: usize,
    source: &mut S,
) -> Result<Part, CliFault>
    ensures found { IfOk result (FindsPart (S.state source.old) (S.state source.new)) }
    ensures fault { IfErr result (IsPartUnread number (S.state source.old) (S.state source.new)) }
{
    match read_part_beside(alloc, known, source) {
        Ok(part) => Ok(part),
        Err(fault) => Err(CliFault::of_file(number, fault)),
    }
}

/// How many registers a file is compared with, so that definitions in both are read once.
const MOST_KNOWN: usize = 4;

// The registers that were read last.
fn read_last(registers: &[Register]) -> &[Register] {
    let start = registers.len().saturating_sub(MOST_KNOWN);
    &registers[start..]
}

/// The registers of some files, and the pieces of others, each in the order of the files.
#[derive(Drop)]
pub struct Parts {
    pub registers: Vec<Register>,
    pub pieces: Vec<Piece>,
}

impl Parts {
    fn push(&mut self, part: Part) -> Result<(), AllocError>
        ensures registers { OnOk result (self.new.registers.items ≡ self.old.registers.items ++ registers (part ∷ [])) }
        ensures pieces { OnOk result (self.new.pieces.items ≡ self.old.pieces.items ++ pieces (part ∷ [])) }
    {
        match part {
            Part::Register(register) => self.registers.push(register)?,
            Part::Piece(piece) => self.pieces.push(piece)?,
        }
        Ok(())
    }
}

/// Only a register.
pub fn parts_of(alloc: Global, register: Register) -> Result<Parts, AllocError>
    ensures registers { IfOk result (λ parts. parts.registers.items ≡ register ∷ []) }
    ensures pieces { IfOk result (λ parts. parts.pieces.items ≡ []) }
{
    let mut registers = Vec::new(alloc);
    registers.push(register)?;
    Ok(Parts {
        registers,
        pieces: Vec::new(alloc),
    })
}

/// Reads a register or a piece from each source, in order, and stops at the first that fails. The first source is file 1.
pub fn read_parts<S: Source>(alloc: Global, sources: &mut [S]) -> Result<Parts, CliFault>
    ensures found { IfOk result (λ parts. GiveParts (map S.state sources.old) (map S.state sources.new) parts.registers.items parts.pieces.items) }
    ensures fault { IfErr result (AreUnread 1 (map S.state sources.old) (map S.state sources.new)) }
{
    let none = Parts {
        registers: Vec::new(alloc),
        pieces: Vec::new(alloc),
    };
    read_parts_after(alloc, none, 1, sources)
}

/// The same with known registers: definitions that one of the last few has are not read again. The first source has this number
/// among all files.
pub fn read_parts_after<S: Source>(
    alloc: Global,
    known: Parts,
    next: usize,
    sources: &mut [S],
) -> Result<Parts, CliFault>
    ensures found { IfOk result (λ parts. GivePartsAfter known.registers.items known.pieces.items
        (map S.state sources.old) (map S.state sources.new) parts.registers.items parts.pieces.items) }
    ensures fault { IfErr result (AreUnread next (map S.state sources.old) (map S.state sources.new)) }
{
    let mut parts = known;
    for i in 0..sources.len() {
        let Some(number) = next.checked_add(i) else {
            return Err(CliFault::Memory);
        };
        let part = match read_next(alloc, read_last(&parts.registers), number, &mut sources[i]) {
            Ok(part) => part,
            Err(fault) => return Err(fault),
        };
        if let Err(_) = parts.push(part) {
            return Err(CliFault::Memory);
        }
    }
    Ok(parts)
}
