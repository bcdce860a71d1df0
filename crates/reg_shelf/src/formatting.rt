//! Makes a shelf of the empty register.

ghost use Rattle.std.specs.Prelude.{◌≡◌, ◌↔◌, ◌⊎◌, IsTrue, OnOk, IsErr, IsErrOf};
ghost use Rattle.byte_disk.specs.Disk.{Only};
ghost use Rattle.byte_shelf.specs.Shelf.{IsSize};
ghost use Rattle.byte_shelf.specs.Keep.{CountsFault};
ghost use Rattle.reg_file.specs.Contents.{nothing};
ghost use Rattle.reg_shelf.specs.Shelf.{IsShelfOf};

use crate::file::file_of;
use crate::size::is_size;
use byte_disk::Disk;
use byte_shelf::ShelfFault;
use reg_file::Register;
use std::alloc::Global;

/// Makes a shelf of the empty register, for files of up to `size` bytes. A stop during the call may leave any bytes.
pub fn format<D: Disk>(alloc: Global, disk: &mut D, size: u32) -> Result<(), ShelfFault>
    ensures done { IsTrue (D.tells disk.old)
        → OnOk result (Only (D.seen disk.new) (D.images disk.new)
        × IsShelfOf (D.seen disk.new) size nothing) }
    ensures bad_size { IsErrOf result ShelfFault.BadSize ↔ (IsSize size → ⊥) }
    // The empty register fits in each slot, and the content of the disk does not matter.
    ensures faults { IsErrOf result ShelfFault.TooLarge ⊎ IsErrOf result ShelfFault.NotShelf → ⊥ }
    // A refusal other than of the disk is returned before anything is done.
    ensures refused { D.failures disk.new ≡ D.failures disk.old → IsErr result
        → disk.new ≡ disk.old }
    ensures counts { CountsFault result (D.failures disk.old) (D.failures disk.new) }
    ensures tells { D.tells disk.new ≡ D.tells disk.old }
{
    if !is_size(size) {
        return Err(ShelfFault::BadSize);
    }
    let file = match file_of(alloc, &Register::new(alloc)) {
        Ok(file) => file,
        Err(fault) => return Err(fault),
    };
    byte_shelf::format(alloc, disk, size, &file)
}
