//! A merge into the register of a shelf.

ghost use Rattle.std.specs.Prelude.{◌≡◌, map, IfOk, IfErr};
ghost use Rattle.reg_engine.specs.Shelf.{disks};
ghost use Rattle.reg_commands.specs.MergeOn.{shelf_ends, IsMergeFaultOn};
ghost use Rattle.reg_take.specs.Merging.{IsMergedOnFrom};

use crate::merge::joining::join_parts;
use crate::merge::merged::Merged;
use byte_disk::Disk;
use byte_io::Source;
use reg_engine::{CliFault, Parts, keep_on, parts_of, read_parts_after, restore_from};
use std::alloc::Global;

/// Does what `run_merge_on` does, and returns the registers, that of the shelf first, the pieces and the join.
pub fn merge_shelf<D: Disk, S: Source>(
    alloc: Global,
    disk: &mut D,
    sources: &mut [S],
) -> Result<Merged, CliFault>
    ensures merged { IfOk result (IsMergedOnFrom (disks D.tells D.seen D.images D.moment D.images_since D.failures)
        (shelf_ends (map S.state sources.old) disk.old) (shelf_ends (map S.state sources.new) disk.new)) }
    ensures fault { IfErr result (IsMergeFaultOn (disks D.tells D.seen D.images D.moment D.images_since D.failures)
        (shelf_ends (map S.state sources.old) disk.old) (shelf_ends (map S.state sources.new) disk.new)) }
    ensures tells { D.tells disk.new ≡ D.tells disk.old }
{
    let first = match restore_from(alloc, disk) {
        Ok(register) => register,
        Err(fault) => return Err(fault),
    };
    let Ok(known) = parts_of(alloc, first) else {
        return Err(CliFault::Memory);
    };
    let parts = match read_parts_after(alloc, known, 1, sources) {
        Ok(parts) => parts,
        Err(fault) => return Err(fault),
    };
    let joined = match join_parts(alloc, &parts) {
        Ok(joined) => joined,
        Err(fault) => return Err(fault),
    };
    match keep_on(alloc, disk, &joined) {
        Ok(()) => {
            let Parts { registers, pieces } = parts;
            Ok(Merged {
                registers,
                pieces,
                joined,
            })
        }
        Err(fault) => Err(fault),
    }
}
