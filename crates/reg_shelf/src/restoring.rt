//! Restores the register of a shelf.

ghost use Rattle.std.specs.Prelude.{◌≡◌, IsTrue, OnOk, IfOk, IfErr, IsErrOf};
ghost use Rattle.byte_disk.specs.Disk.{Only};
ghost use Rattle.byte_shelf.specs.Keep.{AddsNothing, CountsFault};
ghost use Rattle.reg_shelf.specs.Shelf.{HasFile, IsNoShelf, IsShelf};
ghost use Rattle.reg_shelf.specs.Keep.{IsRestoreFault};

use crate::file::register_of;
use byte_disk::Disk;
use byte_shelf::ShelfFault;
use reg_file::Register;
use std::alloc::Global;

/// The register of the shelf.
pub fn restore<D: Disk>(alloc: Global, disk: &mut D) -> Result<Register, ShelfFault>
    ensures found { IsTrue (D.tells disk.old)
        → IfOk result (λ r. IsShelf (D.seen disk.old) r) }
    // The bytes that are read are synced.
    ensures only { IsTrue (D.tells disk.old)
        → OnOk result (Only (D.seen disk.old) (D.images disk.new)) }
    // On every disk, the register that is restored has a file.
    ensures file { IfOk result (λ r. HasFile r) }
    ensures not_shelf { IsTrue (D.tells disk.old)
        → IsErrOf result ShelfFault.NotShelf → IsNoShelf (D.seen disk.old) }
    ensures faults { IfErr result IsRestoreFault }
    ensures nothing { IsTrue (D.tells disk.old)
        → AddsNothing D.seen D.images D.moment D.images_since disk.old disk.new }
    ensures counts { CountsFault result (D.failures disk.old) (D.failures disk.new) }
    ensures tells { D.tells disk.new ≡ D.tells disk.old }
{
    let bytes = match byte_shelf::restore(alloc, disk) {
        Ok(bytes) => bytes,
        Err(fault) => return Err(fault),
    };
    match register_of(alloc, &bytes) {
        Ok(register) => Ok(register),
        Err(fault) => Err(fault),
    }
}
