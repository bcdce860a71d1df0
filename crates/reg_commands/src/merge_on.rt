//! The command `merge` into the register of a shelf.

ghost use Rattle.std.specs.Prelude.{◌≡◌, map, OnOk, IfErr};
ghost use Rattle.reg_engine.specs.Shelf.{disks};
ghost use Rattle.reg_commands.specs.MergeOn.{shelf_ends, IsMergedOn, IsMergeFaultOn};

use crate::merge::{join_pieces, join_registers};
use byte_disk::Disk;
use byte_io::Source;
use reg_engine::{CliFault, Parts, keep_on, parts_of, read_parts_after, restore_from};
use std::alloc::Global;
use std::mem::forget;

/// Restores the register of the shelf, then reads a register or a piece from each source, and keeps their join: the
/// shelf's register, all others, and then the pieces in order. Sources are numbered from 1. The memory of the registers
/// is not freed.
pub fn run_merge_on<D: Disk, S: Source>(
    alloc: Global,
    disk: &mut D,
    sources: &mut [S],
) -> Result<(), CliFault>
    ensures merged { OnOk result (IsMergedOn (disks D.tells D.seen D.images D.moment D.images_since D.failures)
        (shelf_ends (map S.state sources.old) disk.old) (shelf_ends (map S.state sources.new) disk.new)) }
    ensures fault { IfErr result (IsMergeFaultOn (disks D.tells D.seen D.images D.moment D.images_since D.failures)
        (shelf_ends (map S.state sources.old) disk.old) (shelf_ends (map S.state sources.new) disk.new)) }
    ensures tells { D.tells disk.new ≡ D.tells disk.old }
{
    let first = match restore_from(alloc, disk) {
        Ok(register) => register,
        Err(fault) => return Err(fault),
    };
    let Ok(known) = parts_of(alloc, first) else {
        return Err(CliFault::Memory);
    };
    let Parts { registers, pieces } = match read_parts_after(alloc, known, 1, sources) {
        Ok(parts) => parts,
        Err(fault) => return Err(fault),
    };
    let begun = match join_registers(alloc, &registers) {
        Ok(begun) => begun,
        Err(fault) => return Err(fault),
    };
    let joined = match join_pieces(alloc, begun, &pieces) {
        Ok(joined) => joined,
        Err(fault) => return Err(fault),
    };
    match keep_on(alloc, disk, &joined) {
        Ok(()) => {
            // The program ends after a merge, as for a file.
            forget(joined);
            forget(registers);
            forget(pieces);
            Ok(())
        }
        Err(fault) => Err(fault),
    }
}
