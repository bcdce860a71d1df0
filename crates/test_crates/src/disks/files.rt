//! Disks that are files.

use byte_disk::{Disk, DiskFault, FileDisk, MemDisk, NewDisk, NewFile};
use byte_io::NotOpened;
use std::alloc::AllocError;
use std::fs;

#[test]
fn a_file_that_cannot_be_opened(rt: HostRuntime) {
    let mut disk = NewFile::new(&rt, "/dev/null/none");
    assert_eq!(rt; disk.open(), Err(NotOpened));
    assert_eq!(rt; disk.sync(), Err(DiskFault));
    assert_eq!(rt; disk.write_at(0, b"x"), Err(DiskFault));
}

#[test]
fn what_a_device_gives(rt: HostRuntime) {
    let Ok(file) = fs::open(&rt, "/dev/zero") else {
        assert!(rt; false);
        return;
    };
    let mut disk = FileDisk::new(file);
    let mut buf = [1u8; 9];
    assert_eq!(rt; disk.read_at(3, &mut buf), Ok(9));
    assert_eq!(rt; buf, [0; 9]);
    assert_eq!(rt; disk.write_at(0, b"x"), Err(DiskFault));
}

#[test]
fn opening_empties(rt: HostRuntime) -> Result<(), AllocError> {
    let alloc = rt.alloc();
    let mut disk = MemDisk::new(alloc, b"before".to_vec(alloc)?)?;
    assert_eq!(rt; disk.open(), Ok(()));
    assert!(rt; disk.bytes().is_empty());
    disk.refuse_to_open();
    assert_eq!(rt; disk.open(), Err(NotOpened));
    Ok(())
}
