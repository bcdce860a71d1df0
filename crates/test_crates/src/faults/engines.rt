//! How faults print that no command line shows: those of single crates, of memory, of a second reading of OUT, and of a folder that
//! is not synced.

use super::prints;
use byte_out::{MakeFault, ReplaceFault};
use byte_shelf::ShelfFault;
use reg_engine::{CliFault, OutFault};
use reg_file::{FileFault, FirstFileFault, ReadFileFault, WriteFileFault};
use reg_office::{OfficeFault, ReportFault};

#[test]
fn faults_of_commands_have_a_status(rt: HostRuntime) {
    let not_synced = CliFault::Out(OutFault::NotSynced);
    assert!(rt; prints(&rt, rt.alloc(), &not_synced, b"out: NotSynced"));
    assert_eq!(rt; not_synced.status(), 3);
    let unread = CliFault::Out(OutFault::ReadFailed(3));
    assert!(rt; prints(&rt, rt.alloc(), &unread, b"out: ReadFailed at 3"));
    assert_eq!(rt; unread.status(), 3);
    assert!(rt; prints(&rt, rt.alloc(), &CliFault::Memory, b"out of memory"));
    assert_eq!(rt; CliFault::Memory.status(), 4);
}

#[test]
fn faults_of_files_print_without_a_command(rt: HostRuntime) {
    let alloc = rt.alloc();
    let bad = ReadFileFault::File {
        fault: FileFault::Ranges,
        place: 38,
    };
    assert!(rt; prints(&rt, alloc, &FileFault::Ranges, b"Ranges"));
    assert!(rt; prints(&rt, alloc, &bad, b"Ranges at 38"));
    assert!(rt; prints(&rt, alloc, &ReadFileFault::TooLarge, b"TooLarge"));
    assert!(rt;
        prints(
            &rt,
            alloc,
            &ReadFileFault::ReadFailed(7),
            b"ReadFailed at 7"
        )
    );
    assert!(rt; prints(&rt, alloc, &ReadFileFault::Memory, b"out of memory"));
    let write = FirstFileFault::Write;
    assert!(rt; prints(&rt, alloc, &write(WriteFileFault::TooLarge), b"TooLarge"));
    assert!(rt;
        prints(
            &rt,
            alloc,
            &write(WriteFileFault::WriteFailed(3)),
            b"WriteFailed at 3"
        )
    );
    assert!(rt; prints(&rt, alloc, &write(WriteFileFault::Memory), b"out of memory"));
}

#[test]
fn faults_of_offices_print_without_a_command(rt: HostRuntime) {
    let alloc = rt.alloc();
    assert!(rt; prints(&rt, alloc, &OfficeFault::SameEntry, b"SameEntry"));
    assert!(rt; prints(&rt, alloc, &OfficeFault::Memory, b"out of memory"));
    assert!(rt;
        prints(
            &rt,
            alloc,
            &ReportFault::WriteFailed(3),
            b"WriteFailed at 3"
        )
    );
    assert!(rt; prints(&rt, alloc, &ReportFault::Memory, b"out of memory"));
}

#[test]
fn faults_of_places_print_without_a_command(rt: HostRuntime) {
    let alloc = rt.alloc();
    assert!(rt; prints(&rt, alloc, &MakeFault::NotOpened, b"NotOpened"));
    assert!(rt; prints(&rt, alloc, &MakeFault::Exists, b"Exists"));
    assert!(rt; prints(&rt, alloc, &ReplaceFault::NotOpened, b"NotOpened"));
    assert!(rt; prints(&rt, alloc, &ReplaceFault::NewExists, b"NewExists"));
    assert!(rt;
        prints(
            &rt,
            alloc,
            &ReplaceFault::WriteFailed(3),
            b"WriteFailed at 3"
        )
    );
}

#[test]
fn each_fault_of_a_shelf_prints(rt: HostRuntime) {
    let faults = [
        (ShelfFault::BadSize, b"BadSize".as_slice()),
        (ShelfFault::TooLarge, b"TooLarge"),
        (ShelfFault::NotShelf, b"NotShelf"),
        (ShelfFault::Memory, b"out of memory"),
        (ShelfFault::DiskFailed, b"DiskFailed"),
    ];
    for (fault, line) in faults {
        assert_eq!(rt;
            fault.to_string(rt.alloc()).expect(&rt, "a line").as_bytes(),
            line
        );
    }
}
