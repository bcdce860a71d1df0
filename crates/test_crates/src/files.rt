//! Files whose sources fail or split the data, and whose sinks fail or take little.

use crate::samples::{ENTRY, FIRST_ENTRY, PIECE, SUMMARY};
use byte_io::{Full, Pieces, Room, Then};
use reg_file::{
    ReadFileFault, WriteFileFault, read_bytes, read_piece, read_piece_bytes, read_register,
    read_seen, read_seen_bytes, write_piece, write_register, write_seen,
};
use reg_state::{Piece, Register, Seen};
use std::alloc::Global;

// Whether reading a file of each kind from a source that fails after these bytes reports their number.
fn is_register_unread(alloc: Global, front: &[u8]) -> bool {
    let mut source = Pieces::new(front, 3, Then::Fails);
    read_register(alloc, &mut source).err() == Some(ReadFileFault::ReadFailed(front.len()))
}

fn is_seen_unread(alloc: Global, front: &[u8]) -> bool {
    let mut source = Pieces::new(front, 3, Then::Fails);
    read_seen(alloc, &mut source).err() == Some(ReadFileFault::ReadFailed(front.len()))
}

fn is_piece_unread(alloc: Global, front: &[u8]) -> bool {
    let mut source = Pieces::new(front, 3, Then::Fails);
    read_piece(alloc, &mut source).err() == Some(ReadFileFault::ReadFailed(front.len()))
}

#[test]
fn a_source_that_fails_is_told_with_its_bytes(rt: HostRuntime) {
    let alloc = rt.alloc();
    for file in [ENTRY, FIRST_ENTRY] {
        for n in 0..=file.len() {
            assert!(rt; is_register_unread(alloc, &file[..n]), "{n}");
        }
    }
    for n in 0..=SUMMARY.len() {
        assert!(rt; is_seen_unread(alloc, &SUMMARY[..n]), "{n}");
    }
    for n in 0..=PIECE.len() {
        assert!(rt; is_piece_unread(alloc, &PIECE[..n]), "{n}");
    }
}

// The number of operations read from a file in these pieces, or none if it is refused.
fn operations_of(alloc: Global, file: &[u8], piece: usize) -> Option<usize> {
    let mut source = Pieces::new(file, piece, Then::Ends);
    let register = read_register(alloc, &mut source).ok()?;
    Some(register.ops().as_slice().len())
}

#[test]
fn pieces_change_no_answer(rt: HostRuntime) {
    let alloc = rt.alloc();
    for file in [ENTRY, FIRST_ENTRY] {
        for piece in [1, 2, 3, 7, 4096] {
            assert_eq!(rt; operations_of(alloc, file, piece), Some(1));
            let cut = &file[..file.len().min(100)];
            assert_eq!(rt; operations_of(alloc, cut, piece), None);
        }
    }
}

// Whether writing a file of each kind to a sink with room for only its front writes exactly that, and reports it.
fn is_register_cut(alloc: Global, register: &Register, front: &[u8], full: Full) -> bool {
    let mut sink = Room::new(alloc, 3, front.len(), full);
    let fault = write_register(alloc, register, &mut sink).err();
    fault == Some(WriteFileFault::WriteFailed(front.len())) && sink.taken() == front
}

fn is_seen_cut(alloc: Global, seen: &Seen, front: &[u8]) -> bool {
    let mut sink = Room::new(alloc, 3, front.len(), Full::Fails);
    let fault = write_seen(alloc, seen, &mut sink).err();
    fault == Some(WriteFileFault::WriteFailed(front.len())) && sink.taken() == front
}

fn is_piece_cut(alloc: Global, piece: &Piece, front: &[u8]) -> bool {
    let mut sink = Room::new(alloc, 3, front.len(), Full::TakesNone);
    let fault = write_piece(alloc, piece, &mut sink).err();
    fault == Some(WriteFileFault::WriteFailed(front.len())) && sink.taken() == front
}

#[test]
fn a_sink_that_fails_is_told_with_its_bytes(rt: HostRuntime) {
    let alloc = rt.alloc();
    let register = read_bytes(alloc, ENTRY).expect(&rt, "a register");
    for n in 0..ENTRY.len() {
        for full in [Full::Fails, Full::TakesNone] {
            assert!(rt; is_register_cut(alloc, &register, &ENTRY[..n], full), "{n}");
        }
    }
}

#[test]
fn a_sink_of_a_summary_or_a_piece_fails(rt: HostRuntime) {
    let alloc = rt.alloc();
    let seen = read_seen_bytes(alloc, SUMMARY).expect(&rt, "seen ids");
    for n in 0..SUMMARY.len() {
        assert!(rt; is_seen_cut(alloc, &seen, &SUMMARY[..n]), "{n}");
    }
    drop(seen);
    let piece = read_piece_bytes(alloc, PIECE).expect(&rt, "a piece");
    for n in 0..PIECE.len() {
        assert!(rt; is_piece_cut(alloc, &piece, &PIECE[..n]), "{n}");
    }
}
