//! Reads the slot in use.

ghost use Rattle.std.specs.Prelude.{◌≡◌, ◌⊎◌, ◌<◌, ◌≤◌, ◌-◌, ◌^◌, List, ℕ, IsTrue, OnOk, IfOk, IfErr, IsErrOf, length, take};
ghost use Rattle.std.specs.Int.{w32, to_be_bytes};
ghost use Rattle.byte_disk.specs.Disk.{Only};
ghost use Rattle.byte_shelf.specs.Shelf.{IsShelf, IsNoShelf, StandAt, framed};
ghost use Rattle.byte_shelf.specs.Keep.{AddsNothing, CountsFault};

use crate::fault::ShelfFault;
use crate::head::{open_shelf, place_in_use};
use crate::reading::read_bytes;
use byte_disk::Disk;
use std::alloc::Global;

fn length_in(bytes: &[u8]) -> u32
    requires { length bytes.now ≡ 4 }
    ensures { take 4 bytes.now ≡ to_be_bytes w32 result }
{
    u32::from_be_bytes([bytes[0], bytes[1], bytes[2], bytes[3]])
}

// The length at an offset.
fn read_length<D: Disk>(disk: &mut D, at: u64) -> Result<u32, ShelfFault>
    ensures length { IsTrue (D.tells disk.old)
        → IfOk result (λ n. StandAt (D.seen disk.old) at (to_be_bytes w32 n)) }
    ensures short { IsTrue (D.tells disk.old)
        → IsErrOf result ShelfFault.NotShelf → length (D.seen disk.old) - at < 4 }
    ensures faults { IfErr result (λ f. (f ≡ ShelfFault.NotShelf) ⊎ (f ≡ ShelfFault.DiskFailed)) }
    ensures nothing { IsTrue (D.tells disk.old)
        → AddsNothing D.seen D.images D.moment D.images_since disk.old disk.new }
    ensures counts { CountsFault result (D.failures disk.old) (D.failures disk.new) }
    ensures tells { D.tells disk.new ≡ D.tells disk.old }
{
    let mut bytes = [0u8; 4];
    let Ok(n) = disk.read_at(at, &mut bytes) else {
        return Err(ShelfFault::DiskFailed);
    };
    if n < 4 {
        return Err(ShelfFault::NotShelf);
    }
    Ok(length_in(&bytes))
}

// The bytes of a slot.
fn read_slot<D: Disk>(
    alloc: Global,
    disk: &mut D,
    at: u64,
    size: u32,
) -> Result<Vec<u8>, ShelfFault>
    requires { at < 2 ^ 40 }
    ensures bytes { IsTrue (D.tells disk.old)
        → IfOk result (λ v. StandAt (D.seen disk.old) at (framed v.items)) }
    ensures within { IfOk result (λ v. length v.items ≤ size) }
    ensures not_shelf { IsTrue (D.tells disk.old) → IsErrOf result ShelfFault.NotShelf
        → (bytes : List ℕ) → length bytes ≤ size
        → StandAt (D.seen disk.old) at (framed bytes) → ⊥ }
    ensures faults { IsErrOf result ShelfFault.BadSize ⊎ IsErrOf result ShelfFault.TooLarge → ⊥ }
    ensures nothing { IsTrue (D.tells disk.old)
        → AddsNothing D.seen D.images D.moment D.images_since disk.old disk.new }
    ensures counts { CountsFault result (D.failures disk.old) (D.failures disk.new) }
    ensures tells { D.tells disk.new ≡ D.tells disk.old }
{
    let len = match read_length(disk, at) {
        Ok(len) => len,
        Err(fault) => return Err(fault),
    };
    if len > size {
        return Err(ShelfFault::NotShelf);
    }
    match read_bytes(alloc, disk, at + 4, len as usize) {
        Ok(bytes) => Ok(bytes),
        Err(fault) => Err(fault),
    }
}

/// The bytes of the shelf.
pub fn restore<D: Disk>(alloc: Global, disk: &mut D) -> Result<Vec<u8>, ShelfFault>
    ensures found { IsTrue (D.tells disk.old)
        → IfOk result (λ v. IsShelf (D.seen disk.old) v.items) }
    // The bytes that are read are synced.
    ensures only { IsTrue (D.tells disk.old)
        → OnOk result (Only (D.seen disk.old) (D.images disk.new)) }
    ensures not_shelf { IsTrue (D.tells disk.old)
        → IsErrOf result ShelfFault.NotShelf → IsNoShelf (D.seen disk.old) }
    ensures faults { IsErrOf result ShelfFault.BadSize ⊎ IsErrOf result ShelfFault.TooLarge → ⊥ }
    ensures nothing { IsTrue (D.tells disk.old)
        → AddsNothing D.seen D.images D.moment D.images_since disk.old disk.new }
    ensures counts { CountsFault result (D.failures disk.old) (D.failures disk.new) }
    ensures tells { D.tells disk.new ≡ D.tells disk.old }
{
    let head = match open_shelf(disk) {
        Ok(head) => head,
        Err(fault) => return Err(fault),
    };
    match read_slot(alloc, disk, place_in_use(&head), head.size) {
        Ok(bytes) => Ok(bytes),
        Err(fault) => Err(fault),
    }
}
