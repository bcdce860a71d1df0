//! Keeps a register in two steps, for a caller that does something between them.

ghost use Rattle.std.specs.Prelude.{◌≡◌, ◌⊎◌, ℕ, IsTrue, OnOk, IfOk, IfErr, IsErrOf};
ghost use Rattle.byte_disk.specs.Disk.{Only, LeavesOnly};
ghost use Rattle.byte_shelf.specs.Shelf.{EndsWithin, HasNoHead};
ghost use Rattle.byte_shelf.specs.Keep.{AddsNothing, CountsFault};
ghost use Rattle.reg_file.specs.Contents.{Content};
ghost use Rattle.reg_shelf.specs.Shelf.{HasFile, IsShelf, IsShelfOf};
ghost use Rattle.reg_shelf.specs.Keep.{IsTooLarge};
ghost use Rattle.reg_shelf.specs.Ready.{IsReady};

use crate::file::file_of;
use byte_disk::Disk;
use byte_shelf::{Frame, ShelfFault};
use reg_file::Register;
use std::alloc::Global;

/// Makes a frame of the register's file, and looks whether the shelf has room for it. Nothing is written.
pub fn ready<D: Disk>(alloc: Global, disk: &mut D, register: &Register) -> Result<Frame, ShelfFault>
    ensures ready { IsTrue (D.tells disk.old)
        → IfOk result (IsReady (D.seen disk.new) register.now) }
    ensures only { IsTrue (D.tells disk.old)
        → OnOk result (Only (D.seen disk.new) (D.images disk.new)) }
    // On every disk, the register has a file.
    ensures file { OnOk result (HasFile register.now) }
    ensures not_shelf { IsTrue (D.tells disk.old)
        → IsErrOf result ShelfFault.NotShelf → HasNoHead (D.seen disk.old) }
    ensures too_large { IsTrue (D.tells disk.old)
        → IsErrOf result ShelfFault.TooLarge → IsTooLarge (D.seen disk.old) register.now }
    ensures bad_size { IsErrOf result ShelfFault.BadSize → ⊥ }
    ensures nothing { IsTrue (D.tells disk.old)
        → AddsNothing D.seen D.images D.moment D.images_since disk.old disk.new }
    ensures counts { CountsFault result (D.failures disk.old) (D.failures disk.new) }
    ensures tells { D.tells disk.new ≡ D.tells disk.old }
{
    let file = match file_of(alloc, register) {
        Ok(file) => file,
        Err(fault) => return Err(fault),
    };
    byte_shelf::ready(alloc, disk, &file)
}

/// Replaces the register of the shelf by that of the frame, which is ready for the disk. After `DiskFailed`, as after a
/// stop, restore the disk before keeping on it again.
pub fn put<D: Disk>(disk: &mut D, frame: &Frame) -> Result<(), ShelfFault>
    // A stop at any moment leaves a shelf with the old content or the new one.
    ensures any_moment { IsTrue (D.tells disk.old) → Only (D.seen disk.old) (D.images disk.old)
        → (was next : Content) → IsShelf (D.seen disk.old) was → IsReady (D.seen disk.old) next frame.now
        → LeavesOnly D.moment D.images_since disk.old disk.new
        (λ c. IsShelf c was ⊎ IsShelf c next) }
    // Its slots have the size that they had.
    ensures size_stays { IsTrue (D.tells disk.old) → Only (D.seen disk.old) (D.images disk.old)
        → (was next : Content) (size : ℕ) → IsShelfOf (D.seen disk.old) size was → IsReady (D.seen disk.old) next frame.now
        → LeavesOnly D.moment D.images_since disk.old disk.new
        (λ c. IsShelfOf c size was ⊎ IsShelfOf c size next) }
    ensures kept { IsTrue (D.tells disk.old)
        → (was next : Content) → IsShelf (D.seen disk.old) was → IsReady (D.seen disk.old) next frame.now
        → OnOk result (Only (D.seen disk.new) (D.images disk.new)
        × IsShelf (D.seen disk.new) next) }
    // The slots keep their size, and the disk does not grow past them.
    ensures sized { IsTrue (D.tells disk.old)
        → (was next : Content) (size : ℕ) → IsShelfOf (D.seen disk.old) size was → IsReady (D.seen disk.old) next frame.now
        → OnOk result (IsShelfOf (D.seen disk.new) size next
        × EndsWithin size (D.seen disk.old) (D.seen disk.new)) }
    ensures faults { IfErr result (λ f. f ≡ ShelfFault.DiskFailed) }
    ensures counts { CountsFault result (D.failures disk.old) (D.failures disk.new) }
    ensures tells { D.tells disk.new ≡ D.tells disk.old }
{
    byte_shelf::put(disk, frame)
}
