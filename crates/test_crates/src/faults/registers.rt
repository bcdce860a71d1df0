//! How ids print, and faults of operations and registers.

use super::prints;
use reg_op::{NoteFault, OpId};
use reg_state::{ContentFault, JoinFault, PieceFault, TakeFault};
use std::alloc::Global;
use std::fmt::Display;
use std::process::Abort;

const ID: &[u8] = b"936da01f-9abd-4d9d-80c7-02af85c822a8:4294967295";

// After the name stands the id.
fn names<D: Display>(rt: &impl Abort, alloc: Global, fault: &D, name: &[u8]) -> bool {
    let mut line = Vec::from_slice(alloc, name).expect(rt, "a line");
    line.push(b' ').expect(rt, "a line");
    line.extend_from_slice(ID).expect(rt, "a line");
    prints(rt, alloc, fault, &line)
}

#[test]
fn faults_of_operations_print(rt: HostRuntime) {
    let alloc = rt.alloc();
    assert!(rt; prints(&rt, alloc, &NoteFault::NoteTooLong, b"NoteTooLong"));
    assert!(rt; prints(&rt, alloc, &NoteFault::NoteNotUtf8, b"NoteNotUtf8"));
    assert!(rt; prints(&rt, alloc, &NoteFault::Memory, b"out of memory"));
}

#[test]
fn faults_of_registers_print_the_id_that_they_name(rt: HostRuntime) {
    let alloc = rt.alloc();
    let id = OpId::parse(ID).expect(&rt, "an id");
    assert!(rt; prints(&rt, alloc, &id, ID));
    assert!(rt; names(&rt, alloc, &ContentFault::NotKept(id), b"NotKept"));
    assert!(rt; names(&rt, alloc, &TakeFault::Clash(id), b"Clash"));
    assert!(rt; names(&rt, alloc, &PieceFault::Basis(id), b"Basis"));
    assert!(rt; names(&rt, alloc, &PieceFault::Clash(id), b"Clash"));
    assert!(rt; prints(&rt, alloc, &ContentFault::Memory, b"out of memory"));
    assert!(rt; prints(&rt, alloc, &TakeFault::Memory, b"out of memory"));
    assert!(rt; prints(&rt, alloc, &PieceFault::Memory, b"out of memory"));
}

#[test]
fn faults_of_joins_print_what_clashes(rt: HostRuntime) {
    let alloc = rt.alloc();
    let id = OpId::parse(ID).expect(&rt, "an id");
    assert!(rt; names(&rt, alloc, &JoinFault::Clash(id), b"Clash"));
    let fault: JoinFault<OpId> = JoinFault::Memory;
    assert!(rt; prints(&rt, alloc, &fault, b"out of memory"));
}
