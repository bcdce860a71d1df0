//! Keeps a register on a shelf.

ghost use Rattle.std.specs.Prelude.{◌≡◌, ◌⊎◌, List, ℕ, IsTrue, OnOk, IsErr, IsErrOf};
ghost use Rattle.byte_disk.specs.Disk.{Only, LeavesOnly};
ghost use Rattle.byte_shelf.specs.Shelf.{EndsWithin, HasNoHead};
ghost use Rattle.byte_shelf.specs.Keep.{AddsNothing, CountsFault};
ghost use Rattle.reg_file.specs.Contents.{Content};
ghost use Rattle.reg_shelf.specs.Shelf.{HasFile, IsShelf, IsShelfOf};
ghost use Rattle.reg_shelf.specs.Keep.{IsTooLarge};

use crate::file::file_of;
use byte_disk::Disk;
use byte_shelf::ShelfFault;
use reg_file::Register;
use std::alloc::Global;

/// Replaces the register of the shelf by this one. After `DiskFailed`, as after a stop, restore the disk before keeping
/// on it again.
pub fn keep<D: Disk>(alloc: Global, disk: &mut D, register: &Register) -> Result<(), ShelfFault>
    // A stop at any moment leaves a shelf with the old content or the new one.
    ensures any_moment { IsTrue (D.tells disk.old) → (was : Content)
        → ((c : List ℕ) → D.images disk.old c → IsShelf c was)
        → LeavesOnly D.moment D.images_since disk.old disk.new
        (λ c. IsShelf c was ⊎ IsShelf c register.now) }
    // Its slots have the size that they had.
    ensures size_stays { IsTrue (D.tells disk.old) → (was : Content) (size : ℕ)
        → ((c : List ℕ) → D.images disk.old c → IsShelfOf c size was)
        → LeavesOnly D.moment D.images_since disk.old disk.new
        (λ c. IsShelfOf c size was ⊎ IsShelfOf c size register.now) }
    ensures kept { IsTrue (D.tells disk.old) → (was : Content)
        → ((c : List ℕ) → D.images disk.old c → IsShelf c was)
        → OnOk result (Only (D.seen disk.new) (D.images disk.new)
        × IsShelf (D.seen disk.new) register.now) }
    // The slots keep their size, and the disk does not grow past them.
    ensures sized { IsTrue (D.tells disk.old) → (was : Content) (size : ℕ) → IsShelfOf (D.seen disk.old) size was
        → OnOk result (IsShelfOf (D.seen disk.new) size register.now
        × EndsWithin size (D.seen disk.old) (D.seen disk.new)) }
    // On every disk, the register that is kept has a file.
    ensures file { OnOk result (HasFile register.now) }
    ensures not_shelf { IsTrue (D.tells disk.old)
        → IsErrOf result ShelfFault.NotShelf → HasNoHead (D.seen disk.old) }
    ensures too_large { IsTrue (D.tells disk.old)
        → IsErrOf result ShelfFault.TooLarge → IsTooLarge (D.seen disk.old) register.now }
    ensures bad_size { IsErrOf result ShelfFault.BadSize → ⊥ }
    ensures refused { IsTrue (D.tells disk.old) → D.failures disk.new ≡ D.failures disk.old
        → IsErr result → AddsNothing D.seen D.images D.moment D.images_since disk.old disk.new }
    ensures counts { CountsFault result (D.failures disk.old) (D.failures disk.new) }
    ensures tells { D.tells disk.new ≡ D.tells disk.old }
{
    let file = match file_of(alloc, register) {
        Ok(file) => file,
        Err(fault) => return Err(fault),
    };
    byte_shelf::keep(alloc, disk, &file)
}
