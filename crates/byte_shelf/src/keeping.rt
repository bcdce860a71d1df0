//! Keeps bytes: writes the slot that is not in use, and then switches the gate.

ghost use Rattle.std.specs.Prelude.{◌≡◌, ◌⊎◌, ◌<◌, ◌^◌, List, ℕ, IsTrue, OnOk, IfOk, IfErr, IsErrOf, IsErr, length};
ghost use Rattle.byte_disk.specs.Disk.{Only, LeavesOnly};
ghost use Rattle.byte_shelf.specs.Shelf.{IsShelf, IsShelfOf, EndsWithin, HasNoHead, framed};
ghost use Rattle.byte_shelf.specs.Keep.{AddsNothing, CountsFault, IsTooLarge};
ghost use Rattle.byte_shelf.specs.Ready.{IsReady};

use crate::fault::ShelfFault;
use crate::head::{MOST, open_shelf, spare_place};
use byte_disk::{Disk, replace_in_two};
use std::alloc::{AllocError, Global};

/// Bytes with their length, the place of the slot for them, and the gate that selects that slot.
#[derive(Drop)]
pub struct Frame {
    at: u64,
    gate: u8,
    bytes: Vec<u8>,
}

// The length, and the bytes.
fn frame_of(alloc: Global, bytes: &[u8]) -> Result<Vec<u8>, AllocError>
    requires { length bytes.now < 2 ^ 32 }
    ensures { IfOk result (λ v. v.items ≡ framed bytes.now) }
{
    let mut frame = Vec::with_capacity(alloc, bytes.len() + 4)?;
    frame.extend_from_slice(&(bytes.len() as u32).to_be_bytes())?;
    frame.extend_from_slice(bytes)?;
    Ok(frame)
}

/// Makes a frame of these bytes for the slot that is not in use. Nothing is written.
pub fn ready<D: Disk>(alloc: Global, disk: &mut D, bytes: &[u8]) -> Result<Frame, ShelfFault>
    ensures ready { IsTrue (D.tells disk.old)
        → IfOk result (IsReady (D.seen disk.new) bytes.now) }
    ensures only { IsTrue (D.tells disk.old)
        → OnOk result (Only (D.seen disk.new) (D.images disk.new)) }
    ensures not_shelf { IsTrue (D.tells disk.old)
        → IsErrOf result ShelfFault.NotShelf → HasNoHead (D.seen disk.old) }
    ensures too_large { IsTrue (D.tells disk.old)
        → IsErrOf result ShelfFault.TooLarge → IsTooLarge (D.seen disk.old) bytes.now }
    ensures bad_size { IsErrOf result ShelfFault.BadSize → ⊥ }
    ensures nothing { IsTrue (D.tells disk.old)
        → AddsNothing D.seen D.images D.moment D.images_since disk.old disk.new }
    ensures counts { CountsFault result (D.failures disk.old) (D.failures disk.new) }
    ensures tells { D.tells disk.new ≡ D.tells disk.old }
{
    if bytes.len() > MOST as usize {
        return Err(ShelfFault::TooLarge);
    }
    let Ok(frame) = frame_of(alloc, bytes) else {
        return Err(ShelfFault::Memory);
    };
    let head = match open_shelf(disk) {
        Ok(head) => head,
        Err(fault) => return Err(fault),
    };
    if bytes.len() > head.size as usize {
        return Err(ShelfFault::TooLarge);
    }
    Ok(Frame {
        at: spare_place(&head),
        gate: 1 - head.gate % 2,
        bytes: frame,
    })
}

/// Writes a frame, and then switches the gate.
pub fn put<D: Disk>(disk: &mut D, frame: &Frame) -> Result<(), ShelfFault>
    // A stop at any moment leaves a shelf of the old bytes or of those in the frame.
    ensures any_moment { IsTrue (D.tells disk.old) → Only (D.seen disk.old) (D.images disk.old)
        → (was bytes : List ℕ) → IsShelf (D.seen disk.old) was → IsReady (D.seen disk.old) bytes frame.now
        → LeavesOnly D.moment D.images_since disk.old disk.new
        (λ c. IsShelf c was ⊎ IsShelf c bytes) }
    // Its slots have the size that they had.
    ensures size_stays { IsTrue (D.tells disk.old) → Only (D.seen disk.old) (D.images disk.old)
        → (was bytes : List ℕ) (size : ℕ) → IsShelfOf (D.seen disk.old) size was → IsReady (D.seen disk.old) bytes frame.now
        → LeavesOnly D.moment D.images_since disk.old disk.new
        (λ c. IsShelfOf c size was ⊎ IsShelfOf c size bytes) }
    ensures kept { IsTrue (D.tells disk.old)
        → (was bytes : List ℕ) → IsShelf (D.seen disk.old) was → IsReady (D.seen disk.old) bytes frame.now
        → OnOk result (Only (D.seen disk.new) (D.images disk.new)
        × IsShelf (D.seen disk.new) bytes) }
    // The slots keep their size, and the disk does not grow past them.
    ensures sized { IsTrue (D.tells disk.old)
        → (was bytes : List ℕ) (size : ℕ) → IsShelfOf (D.seen disk.old) size was → IsReady (D.seen disk.old) bytes frame.now
        → OnOk result (IsShelfOf (D.seen disk.new) size bytes
        × EndsWithin size (D.seen disk.old) (D.seen disk.new)) }
    ensures faults { IfErr result (λ f. f ≡ ShelfFault.DiskFailed) }
    ensures counts { CountsFault result (D.failures disk.old) (D.failures disk.new) }
    ensures tells { D.tells disk.new ≡ D.tells disk.old }
{
    if replace_in_two(disk, frame.at, &frame.bytes, 0, &[frame.gate]).is_err() {
        return Err(ShelfFault::DiskFailed);
    }
    Ok(())
}

/// Replaces the bytes of the shelf by these.
pub fn keep<D: Disk>(alloc: Global, disk: &mut D, bytes: &[u8]) -> Result<(), ShelfFault>
    // A stop at any moment leaves an image from before the call, or a shelf of the old bytes or of these.
    ensures any_moment { IsTrue (D.tells disk.old) → (was : List ℕ) → IsShelf (D.seen disk.old) was
        → LeavesOnly D.moment D.images_since disk.old disk.new
        (λ c. D.images disk.old c ⊎ (IsShelf c was ⊎ IsShelf c bytes.now)) }
    // Its slots have the size that they had.
    ensures size_stays { IsTrue (D.tells disk.old) → (was : List ℕ) (size : ℕ) → IsShelfOf (D.seen disk.old) size was
        → LeavesOnly D.moment D.images_since disk.old disk.new
        (λ c. D.images disk.old c ⊎ (IsShelfOf c size was ⊎ IsShelfOf c size bytes.now)) }
    ensures kept { IsTrue (D.tells disk.old) → (was : List ℕ) → IsShelf (D.seen disk.old) was
        → OnOk result (Only (D.seen disk.new) (D.images disk.new)
        × IsShelf (D.seen disk.new) bytes.now) }
    // The slots keep their size, and the disk does not grow past them.
    ensures sized { IsTrue (D.tells disk.old) → (was : List ℕ) (size : ℕ) → IsShelfOf (D.seen disk.old) size was
        → OnOk result (IsShelfOf (D.seen disk.new) size bytes.now
        × EndsWithin size (D.seen disk.old) (D.seen disk.new)) }
    ensures not_shelf { IsTrue (D.tells disk.old)
        → IsErrOf result ShelfFault.NotShelf → HasNoHead (D.seen disk.old) }
    ensures too_large { IsTrue (D.tells disk.old)
        → IsErrOf result ShelfFault.TooLarge → IsTooLarge (D.seen disk.old) bytes.now }
    ensures bad_size { IsErrOf result ShelfFault.BadSize → ⊥ }
    ensures refused { IsTrue (D.tells disk.old) → D.failures disk.new ≡ D.failures disk.old
        → IsErr result → AddsNothing D.seen D.images D.moment D.images_since disk.old disk.new }
    ensures counts { CountsFault result (D.failures disk.old) (D.failures disk.new) }
    ensures tells { D.tells disk.new ≡ D.tells disk.old }
{
    let frame = match ready(alloc, disk, bytes) {
        Ok(frame) => frame,
        Err(fault) => return Err(fault),
    };
    if put(disk, &frame).is_err() {
        return Err(ShelfFault::DiskFailed);
    }
    Ok(())
}
