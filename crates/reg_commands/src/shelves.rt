//! The command `shelf`.

ghost use Rattle.std.specs.Prelude.{◌≡◌, ◌↔◌, Err, OnOk, IfErr};
ghost use Rattle.byte_shelf.specs.Shelf.{IsSize};
ghost use Rattle.reg_engine.specs.Shelf.{disks, IsNewShelf, IsUnformatted};

use byte_disk::NewDisk;
use reg_engine::{CliFault, Refusal, ShelfProblem};
use reg_shelf::{format, is_size};
use std::alloc::Global;

/// Opens the disk, which empties it, and makes it a shelf with the empty register, for files of up to `size` bytes.
pub fn run_shelf<D: NewDisk>(alloc: Global, disk: &mut D, size: u32) -> Result<(), CliFault>
    ensures made { OnOk result (IsNewShelf (disks D.tells D.seen D.images D.moment D.images_since D.failures) D.openings size disk.old disk.new) }
    ensures fault { IfErr result (IsUnformatted (disks D.tells D.seen D.images D.moment D.images_since D.failures) D.openings size disk.old disk.new) }
    ensures bad_size { (result ≡ Err (CliFault.Refused Refusal.BadSize)) ↔ (IsSize size → ⊥) }
    ensures tells { D.tells disk.new ≡ D.tells disk.old }
{
    if !is_size(size) {
        return Err(CliFault::Refused(Refusal::BadSize));
    }
    if let Err(_) = disk.open() {
        return Err(CliFault::Shelf(ShelfProblem::NotOpened));
    }
    match format(alloc, disk, size) {
        Ok(()) => Ok(()),
        Err(fault) => Err(CliFault::of_shelf(fault)),
    }
}
