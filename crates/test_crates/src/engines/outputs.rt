//! Outputs over a place whose files are known: a step that fails leaves the old file, and no new file.

use crate::samples::{EMPTY, ENTRY, OFFICE_A};
use byte_io::{Pieces, Then, Writing};
use byte_out::{InputOf, MemPlace, PlaceStep};
use reg_commands::{run_new, run_retire};
use reg_engine::{CliFault, OutFault};
use reg_op::OpId;
use std::alloc::Global;
use std::process::Abort;
use uuid::Uuid;

const OLD: &[u8] = b"what stood there";

// A place with an old file, with room for a new one of `room` bytes, and with a file beside, if one is given.
fn place(rt: &impl Abort, alloc: Global, beside: Option<&[u8]>, room: usize) -> MemPlace {
    let old = Vec::from_slice(alloc, OLD).expect(rt, "room for a file");
    let beside = match beside {
        Some(bytes) => Some(Vec::from_slice(alloc, bytes).expect(rt, "room for a file")),
        None => None,
    };
    MemPlace::new(alloc, Some(old), beside, room)
}

// Writes a new register to the place, checks the files that are there afterwards, and returns the fault.
fn new_leaves(
    rt: &impl Abort,
    alloc: Global,
    place: &mut MemPlace,
    stands: &[u8],
    beside: Option<&[u8]>,
) -> Option<CliFault> {
    let fault = run_new(alloc, place).err();
    assert!(rt; place.stands() == Some(stands));
    assert!(rt; place.beside() == beside);
    assert!(rt; !place.is_torn());
    fault
}

#[test]
fn a_new_file_stands_in_the_place_of_the_old_one(rt: HostRuntime) {
    let alloc = rt.alloc();
    let mut place = place(&rt, alloc, None, 14);
    assert_eq!(rt; new_leaves(&rt, alloc, &mut place, EMPTY, None), None);

    let mut empty = MemPlace::new(alloc, None, None, 14);
    assert_eq!(rt; new_leaves(&rt, alloc, &mut empty, EMPTY, None), None);
}

#[test]
fn a_step_that_fails_leaves_the_old_file(rt: HostRuntime) {
    let alloc = rt.alloc();
    let steps = [
        (PlaceStep::Make, OutFault::NotOpened),
        (PlaceStep::Sync, OutFault::WriteFailed(14)),
        (PlaceStep::Put, OutFault::NotOpened),
    ];
    for (step, fault) in steps {
        let mut place = place(&rt, alloc, None, 14);
        place.fail_at(step);
        let given = new_leaves(&rt, alloc, &mut place, OLD, None);
        assert_eq!(rt; given, Some(CliFault::Out(fault)));
    }
}

#[test]
fn a_full_disk_leaves_the_old_file(rt: HostRuntime) {
    let alloc = rt.alloc();
    for room in [0, 1, 13] {
        let mut place = place(&rt, alloc, None, room);
        let given = new_leaves(&rt, alloc, &mut place, OLD, None);
        assert_eq!(rt; given, Some(CliFault::Out(OutFault::WriteFailed(room))));
    }
}

#[test]
fn the_new_file_of_another_writer_stays(rt: HostRuntime) {
    let alloc = rt.alloc();
    let mut place = place(&rt, alloc, Some(b"half"), 14);
    let given = new_leaves(&rt, alloc, &mut place, OLD, Some(b"half"));
    assert_eq!(rt; given, Some(CliFault::Out(OutFault::NewExists)));
}

// Retires the entry of a register, and replaces the file in the place, which was read or not. Returns the fault and the output.
fn retired(
    rt: &impl Abort,
    alloc: Global,
    is_read: bool,
    place: &mut MemPlace,
) -> (Option<CliFault>, Vec<u8>) {
    let mut source = InputOf::new(alloc, Pieces::new(ENTRY, 7, Then::Ends), is_read);
    let mut sink = Writing::new(Vec::new(alloc));
    let replica = Uuid::from_u128(OFFICE_A);
    let entries = [OpId::new(replica, 1).expect(rt, "an id")];
    let fault = run_retire(alloc, &mut source, replica, &entries, "", place, &mut sink).err();
    (fault, sink.into_inner())
}

#[test]
fn a_file_that_is_not_the_one_that_was_read_stays(rt: HostRuntime) {
    let alloc = rt.alloc();
    let mut other = place(&rt, alloc, None, 1000);
    let (fault, printed) = retired(&rt, alloc, true, &mut other);
    assert_eq!(rt; fault, Some(CliFault::Out(OutFault::Changed)));
    assert!(rt; other.stands() == Some(OLD));
    assert!(rt; other.beside().is_none());
    assert!(rt; printed.is_empty());

    let steps = [
        (PlaceStep::Reopen, OutFault::NotOpened),
        (PlaceStep::Reread, OutFault::ReadFailed(0)),
    ];
    for (step, cause) in steps {
        let mut unread = place(&rt, alloc, None, 1000);
        unread.fail_at(step);
        let (fault, printed) = retired(&rt, alloc, true, &mut unread);
        assert_eq!(rt; fault, Some(CliFault::Out(cause)));
        assert!(rt; unread.stands() == Some(OLD));
        assert!(rt; unread.beside().is_none());
        assert!(rt; printed.is_empty());
    }

    let copy = Vec::from_slice(alloc, ENTRY).expect(&rt, "room for a file");
    let mut same = MemPlace::new(alloc, Some(copy), None, 1000);
    let (fault, printed) = retired(&rt, alloc, true, &mut same);
    assert_eq!(rt; fault, None);
    assert!(rt; same.stands() != Some(ENTRY));
    assert!(rt; same.has_landed());
    assert!(rt; !printed.is_empty());
}

#[test]
fn ids_are_printed_where_the_folder_is_not_synced(rt: HostRuntime) {
    let alloc = rt.alloc();
    let mut place = place(&rt, alloc, None, 1000);
    place.fail_at(PlaceStep::Land);
    let (fault, printed) = retired(&rt, alloc, false, &mut place);
    assert_eq!(rt; fault, Some(CliFault::Out(OutFault::NotSynced)));
    assert!(rt; place.stands() != Some(OLD));
    assert!(rt; place.beside().is_none());
    assert!(rt; !place.has_landed());
    assert!(rt; !printed.is_empty());
}

#[test]
fn a_file_that_is_not_put_prints_no_id(rt: HostRuntime) {
    let alloc = rt.alloc();
    for step in [PlaceStep::Make, PlaceStep::Sync, PlaceStep::Put] {
        let mut place = place(&rt, alloc, None, 1000);
        place.fail_at(step);
        let (fault, printed) = retired(&rt, alloc, false, &mut place);
        assert!(rt; fault.is_some());
        assert!(rt; place.stands() == Some(OLD));
        assert!(rt; place.beside().is_none());
        assert!(rt; printed.is_empty());
    }
}
