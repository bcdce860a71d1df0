//! Writes that are synced.

ghost use Rattle.std.specs.Prelude.{◌≡◌, IsTrue, OnOk, length};
ghost use Rattle.byte_io.specs.Device.{CountsFailure};
ghost use Rattle.byte_disk.specs.Disk.{Only, Torn, IsWritten, LeavesOnly, InTwo, AreBothWritten};

use crate::disk::{Disk, DiskFault};

/// Writes the bytes and syncs.
pub fn write_through<D: Disk>(disk: &mut D, at: u64, bytes: &[u8]) -> Result<(), DiskFault>
    ensures done { IsTrue (D.tells disk.old)
        → OnOk result (Only (D.seen disk.new) (D.images disk.new)) }
    ensures written { IsTrue (D.tells disk.old)
        → OnOk result (IsWritten (D.seen disk.old) at bytes.now (D.seen disk.new)) }

    // A stop at any moment of the call leaves the old bytes, with any bytes in the range.
    ensures any_moment { IsTrue (D.tells disk.old)
        → Only (D.seen disk.old) (D.images disk.old)
        → LeavesOnly D.moment D.images_since disk.old disk.new
        (Torn at (length bytes.now) (D.seen disk.old)) }
    ensures failure { CountsFailure result (D.failures disk.old) (D.failures disk.new) }
    ensures tells { D.tells disk.new ≡ D.tells disk.old }
{
    disk.write_at(at, bytes)?;
    disk.sync()
}

/// Writes in two places, the second after the first is synced.
pub fn replace_in_two<D: Disk>(
    disk: &mut D,
    at: u64,
    bytes: &[u8],
    gate_at: u64,
    gate: &[u8],
) -> Result<(), DiskFault>
    ensures done { IsTrue (D.tells disk.old)
        → OnOk result (Only (D.seen disk.new) (D.images disk.new)) }
    ensures written { IsTrue (D.tells disk.old)
        → OnOk result (AreBothWritten at bytes.now gate_at gate.now
        (D.seen disk.old) (D.seen disk.new)) }

    // A stop at any moment leaves a part of the first write, or the first write and a part of the second.
    ensures any_moment { IsTrue (D.tells disk.old)
        → Only (D.seen disk.old) (D.images disk.old)
        → LeavesOnly D.moment D.images_since disk.old disk.new
        (InTwo at bytes.now gate_at (length gate.now) (D.seen disk.old)) }
    ensures failure { CountsFailure result (D.failures disk.old) (D.failures disk.new) }
    ensures tells { D.tells disk.new ≡ D.tells disk.old }
{
    write_through(disk, at, bytes)?;
    write_through(disk, gate_at, gate)
}
