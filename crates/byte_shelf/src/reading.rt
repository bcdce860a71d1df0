//! Reads many bytes, a chunk at a time, so that no allocation has a size that the disk states.

ghost use Rattle.std.specs.Prelude.{◌≡◌, ◌⊎◌, ◌+◌, ◌<◌, ◌-◌, ◌^◌, ◌++◌, min, IsTrue, OnOk, IfOk, IsErrOf, length, take, drop};
ghost use Rattle.byte_shelf.specs.Keep.{AddsNothing, CountsFault};

use crate::fault::ShelfFault;
use byte_disk::Disk;
use std::alloc::Global;

/// How many bytes are read at once.
const CHUNK: usize = 4096;

// Appends the bytes from an offset on, at most a chunk.
fn read_more<D: Disk>(
    disk: &mut D,
    at: u64,
    most: usize,
    bytes: &mut Vec<u8>,
) -> Result<(), ShelfFault>
    ensures more { IsTrue (D.tells disk.old)
        → OnOk result (bytes.new.items ≡ bytes.old.items ++ take (min most 4096) (drop at (D.seen disk.old))) }
    ensures len { OnOk result (length bytes.new.items ≡ length bytes.old.items + min most 4096) }
    ensures short { IsTrue (D.tells disk.old)
        → IsErrOf result ShelfFault.NotShelf → length (D.seen disk.old) - at < min most 4096 }
    ensures faults { IsErrOf result ShelfFault.BadSize ⊎ IsErrOf result ShelfFault.TooLarge → ⊥ }
    ensures nothing { IsTrue (D.tells disk.old)
        → AddsNothing D.seen D.images D.moment D.images_since disk.old disk.new }
    ensures counts { CountsFault result (D.failures disk.old) (D.failures disk.new) }
    ensures tells { D.tells disk.new ≡ D.tells disk.old }
{
    let mut chunk = [0u8; CHUNK];
    let want = most.min(CHUNK);
    let Ok(n) = disk.read_at(at, &mut chunk[..want]) else {
        return Err(ShelfFault::DiskFailed);
    };
    if n < want {
        return Err(ShelfFault::NotShelf);
    }
    if bytes.extend_from_slice(&chunk[..want]).is_err() {
        return Err(ShelfFault::Memory);
    }
    Ok(())
}

/// This many bytes from an offset on.
pub(crate) fn read_bytes<D: Disk>(
    alloc: Global,
    disk: &mut D,
    at: u64,
    len: usize,
) -> Result<Vec<u8>, ShelfFault>
    requires { at + len < 2 ^ 64 }
    ensures bytes { IsTrue (D.tells disk.old)
        → IfOk result (λ v. v.items ≡ take len (drop at (D.seen disk.old))) }
    ensures len { IfOk result (λ v. length v.items ≡ len) }
    ensures short { IsTrue (D.tells disk.old)
        → IsErrOf result ShelfFault.NotShelf → length (D.seen disk.old) - at < len }
    ensures faults { IsErrOf result ShelfFault.BadSize ⊎ IsErrOf result ShelfFault.TooLarge → ⊥ }
    ensures nothing { IsTrue (D.tells disk.old)
        → AddsNothing D.seen D.images D.moment D.images_since disk.old disk.new }
    ensures counts { CountsFault result (D.failures disk.old) (D.failures disk.new) }
    ensures tells { D.tells disk.new ≡ D.tells disk.old }
{
    let mut bytes = Vec::new(alloc);
    while bytes.len() < len {
        let done = bytes.len();
        match read_more(disk, at + done as u64, len - done, &mut bytes) {
            Ok(()) => {}
            Err(fault) => return Err(fault),
        }
    }
    Ok(bytes)
}
