//! Commands on a shelf, and one whose disk fails at each of its calls.

use crate::samples::{EMPTY, ENTRY, HEIGHT, OFFICE_A, OTHER_HEIGHT};
use byte_disk::{MemDisk, Pending};
use byte_io::{Full, MemoryTarget, Pieces, Room, Then};
use reg_commands::{run_enter_on, run_retire_on, run_supersede_on, run_unshelf};
use reg_engine::{CliFault, ShelfProblem};
use reg_file::write_bytes;
use reg_op::OpId;
use reg_shelf::{format, restore};
use std::alloc::Global;
use std::process::Abort;
use uuid::Uuid;

// The number of calls for entering: sync, head, length, slot; sync, head, slot, sync, gate, sync.
const CALLS: u64 = 10;

// The effects of a stop on unsynced bytes.
static PENDING: [Pending; 3] = [Pending::Old, Pending::New, Pending::Each(0xff)];

// A disk with these bytes.
fn disk_of(rt: &impl Abort, alloc: Global, bytes: &[u8]) -> MemDisk {
    let bytes = Vec::from_slice(alloc, bytes).expect(rt, "room for a disk");
    MemDisk::new(alloc, bytes).expect(rt, "a disk")
}

// A shelf of this size with the empty register. All its bytes are synced, and no call is counted yet.
fn shelf_of(rt: &impl Abort, alloc: Global, size: u32) -> MemDisk {
    let mut disk = disk_of(rt, alloc, &[]);
    format(alloc, &mut disk, size).expect(rt, "a shelf");
    disk_of(rt, alloc, disk.bytes())
}

// The file of the register that is restored from the bytes that a stop at this moment leaves.
fn left(rt: &impl Abort, alloc: Global, disk: &MemDisk, pending: Pending) -> Vec<u8> {
    let image = disk.left(pending).expect(rt, "an image");
    let mut again = MemDisk::new(alloc, image).expect(rt, "a disk");
    let register = restore(alloc, &mut again).expect(rt, "a shelf");
    write_bytes(alloc, &register).expect(rt, "a file")
}

// The fault of entering the text as the first replica, and the output.
fn entered(
    alloc: Global,
    disk: &mut MemDisk,
    text: &[u8],
    room: usize,
) -> (Option<CliFault>, Room) {
    let mut text = Pieces::new(text, 7, Then::Ends);
    let mut sink = Room::new(alloc, 7, room, Full::Fails);
    let replica = Uuid::from_u128(OFFICE_A);
    let fault = run_enter_on(alloc, disk, replica, &mut text, "", &mut sink).err();
    (fault, sink)
}

#[test]
fn each_call_of_entering_fails_in_turn(rt: HostRuntime) {
    let alloc = rt.alloc();
    for call in 0..CALLS {
        let mut disk = shelf_of(&rt, alloc, 512);
        disk.fail_at(call);
        let (fault, sink) = entered(alloc, &mut disk, HEIGHT, 100);
        assert_eq!(rt;
            fault,
            Some(CliFault::Shelf(ShelfProblem::DiskFailed)),
            "{call}"
        );
        assert_eq!(rt; sink.taken().len(), 0, "{call}");
        for pending in PENDING {
            let found = left(&rt, alloc, &disk, pending);
            let old_or_new = found.as_slice() == EMPTY || found.as_slice() == ENTRY;
            assert!(rt; old_or_new, "{call}");
        }
    }
    let mut disk = shelf_of(&rt, alloc, 512);
    disk.fail_at(CALLS);
    let (fault, _) = entered(alloc, &mut disk, HEIGHT, 100);
    assert_eq!(rt; fault, None);
}

// The lines of the third and the fourth id of the first replica.
const LAST_IDS: &[u8] =
    b"00000000-0000-4000-8000-00000000000a:3\n00000000-0000-4000-8000-00000000000a:4\n";

// The first of two entries is superseded by the second, and then retired, so that the supersession is only seen.
#[test]
fn an_entry_is_superseded_and_retired_on_its_shelf(rt: HostRuntime) {
    let alloc = rt.alloc();
    let office = Uuid::from_u128(OFFICE_A);
    let first = OpId::new(office, 1).expect(&rt, "an id");
    let second = OpId::new(office, 2).expect(&rt, "an id");
    let mut disk = shelf_of(&rt, alloc, 512);
    for text in [HEIGHT, OTHER_HEIGHT] {
        let (fault, _) = entered(alloc, &mut disk, text, 100);
        assert_eq!(rt; fault, None);
    }
    let mut sink = Room::new(alloc, 7, 100, Full::Fails);
    let done = run_supersede_on(alloc, &mut disk, office, first, &[second], "", &mut sink);
    assert!(rt; done.is_ok());
    let done = run_retire_on(alloc, &mut disk, office, &[first], "", &mut sink);
    assert!(rt; done.is_ok());
    assert_eq!(rt; sink.taken(), LAST_IDS);
    let mut target = MemoryTarget::new(alloc, true);
    assert!(rt; run_unshelf(alloc, &mut disk, &mut target).is_ok());
    assert_eq!(rt; target.taken().len(), 322);
}
