//! Calls on registers and their files.

use crate::outcome::TestOutcome;
use crate::{ready, word};
use byte_io::{MemoryTarget, Reading, Writing};
use reg_commands::run_merge;
use reg_engine::{CliFault, Refusal};
use reg_file::{ReadFileFault, read_bytes, read_piece_bytes, write_bytes};
use reg_office::{Office, OfficeFault, ReportFault, ReportKind};
use reg_op::OpId;
use reg_state::{Join, JoinFault, PieceFault, Register, TakeFault};
use std::{fs, io};

/// The register of a file, or none if memory failed.
fn register_of(rt: &HostRuntime, file: &[u8]) -> Option<Register> {
    read_bytes(rt.alloc(), file).ok()
}

/// Whether the file of the register still has these bytes.
fn is_left(rt: &HostRuntime, register: &Register, file: &[u8]) -> bool {
    match write_bytes(rt.alloc(), register) {
        Ok(written) => written.as_slice() == file,
        Err(_) => false,
    }
}

/// Takes the last operation of another register: `take FILE OTHER`.
pub fn take(rt: &HostRuntime, words: &[String]) -> io::Result<TestOutcome> {
    let file = fs::read(rt, word(words, 2))?;
    let other_file = fs::read(rt, word(words, 3))?;
    let (Some(mut register), Some(other)) = (register_of(rt, &file), register_of(rt, &other_file))
    else {
        return Ok(TestOutcome::Memory);
    };
    let Some(last) = other.ops().as_slice().last() else {
        return Ok(TestOutcome::Wrong);
    };
    let Ok(op) = last.try_clone(rt.alloc()) else {
        return Ok(TestOutcome::Memory);
    };
    ready(rt)?;
    Ok(match register.take(op).err() {
        None => TestOutcome::Done,
        Some(fault) => of_take(fault, is_left(rt, &register, &file)),
    })
}

fn of_take(fault: TakeFault, is_left: bool) -> TestOutcome {
    match fault {
        TakeFault::Memory => TestOutcome::left(is_left),
        TakeFault::Clash(id) => TestOutcome::Refused("Clash", id),
    }
}

/// Joins two registers: `join FILE OTHER`.
pub fn join(rt: &HostRuntime, words: &[String]) -> io::Result<TestOutcome> {
    let file = fs::read(rt, word(words, 2))?;
    let other_file = fs::read(rt, word(words, 3))?;
    let (Some(register), Some(other)) = (register_of(rt, &file), register_of(rt, &other_file))
    else {
        return Ok(TestOutcome::Memory);
    };
    ready(rt)?;
    Ok(match register.join(rt.alloc(), &other) {
        Ok(_) => TestOutcome::Done,
        Err(JoinFault::Memory) => TestOutcome::left(is_left(rt, &register, &file)),
        Err(JoinFault::Clash(id)) => TestOutcome::Refused("Clash", id),
    })
}

/// Joins a piece to a register: `piece FILE PIECE`.
pub fn piece(rt: &HostRuntime, words: &[String]) -> io::Result<TestOutcome> {
    let file = fs::read(rt, word(words, 2))?;
    let piece_file = fs::read(rt, word(words, 3))?;
    let (Some(register), Ok(piece)) = (
        register_of(rt, &file),
        read_piece_bytes(rt.alloc(), &piece_file),
    ) else {
        return Ok(TestOutcome::Memory);
    };
    ready(rt)?;
    Ok(match register.join_piece(rt.alloc(), &piece).err() {
        None => TestOutcome::Done,
        Some(fault) => of_piece(fault, is_left(rt, &register, &file)),
    })
}

fn of_piece(fault: PieceFault, is_left: bool) -> TestOutcome {
    match fault {
        PieceFault::Memory => TestOutcome::left(is_left),
        PieceFault::Basis(id) => TestOutcome::Refused("Basis", id),
        PieceFault::Clash(id) => TestOutcome::Refused("Clash", id),
    }
}

/// Supersedes an entry by others, for the office of the entry: `supersede FILE OLD BY..`.
pub fn supersede(rt: &HostRuntime, words: &[String]) -> io::Result<TestOutcome> {
    let file = fs::read(rt, word(words, 2))?;
    let (Some(register), Some(old)) = (
        register_of(rt, &file),
        OpId::parse(word(words, 3).as_bytes()),
    ) else {
        return Ok(TestOutcome::Memory);
    };
    let mut newer = Vec::new(rt.alloc());
    for word in words.iter().skip(4) {
        if let Some(id) = OpId::parse(word.as_str().as_bytes()) {
            newer.push(id)?;
        }
    }
    let mut office = Office::new(old.replica(), register);
    ready(rt)?;
    Ok(match office.supersede(rt.alloc(), old, &newer, "why") {
        Ok(_) => TestOutcome::Done,
        Err(OfficeFault::Memory) => TestOutcome::left(is_left(rt, office.register(), &file)),
        Err(_) => TestOutcome::Wrong,
    })
}

/// Reports the entries of a register: `report FILE`.
pub fn report(rt: &HostRuntime, words: &[String]) -> io::Result<TestOutcome> {
    let file = fs::read(rt, word(words, 2))?;
    let Some(register) = register_of(rt, &file) else {
        return Ok(TestOutcome::Memory);
    };
    let mut room = Vec::with_capacity(rt.alloc(), 10_000)?;
    room.clear();
    let mut sink = Writing::new(room);
    ready(rt)?;
    Ok(
        match reg_office::report(rt.alloc(), &register, ReportKind::Entries, &mut sink) {
            Ok(()) => TestOutcome::Done,
            Err(ReportFault::Memory) => TestOutcome::left(sink.into_inner().is_empty()),
            Err(_) => TestOutcome::Wrong,
        },
    )
}

/// Reads the file of a register, or of a piece: `register FILE`.
pub fn register(rt: &HostRuntime, words: &[String]) -> io::Result<TestOutcome> {
    let file = fs::read(rt, word(words, 2))?;
    ready(rt)?;
    let read = if word(words, 3) == "piece" {
        read_piece_bytes(rt.alloc(), &file).err()
    } else {
        read_bytes(rt.alloc(), &file).err()
    };
    Ok(match read {
        None => TestOutcome::Done,
        Some(ReadFileFault::Memory) => TestOutcome::Memory,
        Some(_) => TestOutcome::Wrong,
    })
}

/// Merges a file with itself: `merge FILE`.
pub fn merge(rt: &HostRuntime, words: &[String]) -> io::Result<TestOutcome> {
    let file = fs::read(rt, word(words, 2))?;
    let mut sources = Vec::new(rt.alloc());
    sources.push(Reading::new(file.as_slice()))?;
    sources.push(Reading::new(file.as_slice()))?;
    let mut target = MemoryTarget::new(rt.alloc(), true);
    ready(rt)?;
    Ok(match run_merge(rt.alloc(), &mut sources, &mut target) {
        Ok(()) => TestOutcome::Done,
        Err(CliFault::Memory) => TestOutcome::left(target.taken().is_empty()),
        // The memory that fails may be the target's own.
        Err(CliFault::Out(_)) => TestOutcome::Memory,
        Err(_) => TestOutcome::Wrong,
    })
}
