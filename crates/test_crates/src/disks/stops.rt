//! Stops and failures at each call of a disk.

use byte_disk::{Disk, DiskFault, MemDisk, Pending};
use byte_shelf::{ShelfFault, format, keep, restore};
use std::alloc::{AllocError, Global};

static PENDING: [Pending; 3] = [Pending::Old, Pending::New, Pending::Each(0xff)];

/// The number of calls for keeping bytes: sync, head, slot, sync, gate, sync.
const CALLS: u64 = 6;

// A disk with these bytes.
fn disk_of(alloc: Global, bytes: &[u8]) -> Result<MemDisk, AllocError> {
    MemDisk::new(alloc, bytes.to_vec(alloc)?)
}

fn shelf(alloc: Global) -> Result<MemDisk, AllocError> {
    let mut disk = disk_of(alloc, &[])?;
    let _ = format(alloc, &mut disk, 14, b"abc");
    disk_of(alloc, disk.bytes())
}

// The bytes that are restored after a stop.
fn restored(alloc: Global, disk: &MemDisk, pending: Pending) -> Result<Vec<u8>, AllocError> {
    let mut again = MemDisk::new(alloc, disk.left(pending)?)?;
    match restore(alloc, &mut again) {
        Ok(bytes) => Ok(bytes),
        Err(_) => b"none".to_vec(alloc),
    }
}

#[test]
fn a_stop_leaves_the_old_bytes_or_the_new(rt: HostRuntime) -> Result<(), AllocError> {
    let alloc = rt.alloc();
    for call in 0..CALLS {
        for pending in PENDING {
            let mut disk = shelf(alloc)?;
            disk.stop_from(call);
            let fault = keep(alloc, &mut disk, b"wxyz").err();
            assert_eq!(rt; fault, Some(ShelfFault::DiskFailed), "{call}");
            let bytes = restored(alloc, &disk, pending)?;
            let is_new = call >= 4 && pending != Pending::Old;
            let expected = if is_new { b"wxyz".as_slice() } else { b"abc" };
            assert_eq!(rt; bytes.as_slice(), expected, "{call}");
        }
    }
    let mut disk = shelf(alloc)?;
    disk.stop_from(CALLS);
    assert_eq!(rt; keep(alloc, &mut disk, b"wxyz").err(), None);
    assert_eq!(rt; disk.calls(), CALLS);
    for pending in PENDING {
        assert_eq!(rt;
            restored(alloc, &disk, pending)?.as_slice(),
            b"wxyz".as_slice()
        );
    }
    Ok(())
}

#[test]
fn each_call_fails(rt: HostRuntime) -> Result<(), AllocError> {
    let alloc = rt.alloc();
    for call in 0..CALLS {
        let mut disk = shelf(alloc)?;
        disk.fail_at(call);
        let fault = keep(alloc, &mut disk, b"wxyz").err();
        assert_eq!(rt; fault, Some(ShelfFault::DiskFailed), "{call}");
        for pending in PENDING {
            let bytes = restored(alloc, &disk, pending)?;
            assert!(rt;
                bytes.as_slice() == b"wxyz".as_slice() || bytes.as_slice() == b"abc".as_slice(),
                "{call}"
            );
        }
        // One call fails.
        let found = restore(alloc, &mut disk);
        assert!(rt; found.is_ok(), "{call}");
    }
    Ok(())
}

#[test]
fn a_disk_that_stopped_does_nothing_more(rt: HostRuntime) -> Result<(), AllocError> {
    let mut disk = disk_of(rt.alloc(), b"before")?;
    disk.stop_from(1);
    assert_eq!(rt; disk.write_at(6, b"!"), Ok(()));
    assert_eq!(rt; disk.write_at(0, b"after"), Err(DiskFault));
    assert_eq!(rt; disk.write_at(8, b"later"), Err(DiskFault));
    assert_eq!(rt; disk.sync(), Err(DiskFault));
    assert_eq!(rt; disk.left(Pending::Old)?.as_slice(), b"before".as_slice());
    assert_eq!(rt; disk.left(Pending::New)?.as_slice(), b"aftere!".as_slice());
    assert_eq!(rt;
        disk.left(Pending::Each(b'x'))?.as_slice(),
        b"xxxxxex".as_slice()
    );
    Ok(())
}

#[test]
fn a_read_is_short_only_at_the_end(rt: HostRuntime) -> Result<(), AllocError> {
    let mut disk = disk_of(rt.alloc(), b"0123456789")?;
    for (at, n) in [(0, 4), (6, 4), (7, 3), (10, 0), (u64::MAX, 0)] {
        let mut buf = [0u8; 4];
        assert_eq!(rt; disk.read_at(at, &mut buf), Ok(n), "{at}");
    }
    assert_eq!(rt; disk.write_at(12, b"xy"), Ok(()));
    assert_eq!(rt; disk.bytes(), b"0123456789\x00\x00xy".as_slice());
    Ok(())
}
