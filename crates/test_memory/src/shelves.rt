//! Calls on shelves.

use crate::outcome::TestOutcome;
use crate::{ready, word};
use byte_disk::{MemDisk, Pending};
use byte_shelf::ShelfFault;
use reg_file::read_bytes;
use std::{fs, io};

/// Keeps a register on a shelf: `keep SHELF FILE`.
pub fn keep(rt: &HostRuntime, words: &[String]) -> io::Result<TestOutcome> {
    let shelf = fs::read(rt, word(words, 2))?;
    let file = fs::read(rt, word(words, 3))?;
    let held = shelf.to_vec(rt.alloc())?;
    let (Ok(register), Ok(mut disk)) = (
        read_bytes(rt.alloc(), &file),
        MemDisk::new(rt.alloc(), held),
    ) else {
        return Ok(TestOutcome::Memory);
    };
    ready(rt)?;
    Ok(match reg_shelf::keep(rt.alloc(), &mut disk, &register) {
        Ok(()) => TestOutcome::Done,
        Err(ShelfFault::Memory) => TestOutcome::left(disk.bytes() == shelf.as_slice()),
        // The disk's own record may fail to allocate. A stop then leaves the old register or the new one.
        Err(ShelfFault::DiskFailed) => restored(rt, &disk),
        Err(_) => TestOutcome::Wrong,
    })
}

/// Whether the bytes that a stop leaves are a shelf.
fn restored(rt: &HostRuntime, disk: &MemDisk) -> TestOutcome {
    let Ok(left) = disk.left(Pending::Old) else {
        return TestOutcome::Wrong;
    };
    match MemDisk::new(rt.alloc(), left) {
        Ok(mut disk) => TestOutcome::left(reg_shelf::restore(rt.alloc(), &mut disk).is_ok()),
        Err(_) => TestOutcome::Wrong,
    }
}

/// Restores the register of a shelf: `restore SHELF`.
pub fn restore(rt: &HostRuntime, words: &[String]) -> io::Result<TestOutcome> {
    let shelf = fs::read(rt, word(words, 2))?;
    let Ok(mut disk) = MemDisk::new(rt.alloc(), shelf) else {
        return Ok(TestOutcome::Memory);
    };
    ready(rt)?;
    Ok(match reg_shelf::restore(rt.alloc(), &mut disk) {
        Ok(_) => TestOutcome::Done,
        Err(ShelfFault::Memory) | Err(ShelfFault::DiskFailed) => TestOutcome::Memory,
        Err(_) => TestOutcome::Wrong,
    })
}
