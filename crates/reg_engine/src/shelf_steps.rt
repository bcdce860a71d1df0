//! The steps of a command on a shelf: it restores the register, and keeps another one.

ghost use Rattle.std.specs.Prelude.{◌≡◌, OnOk, IfOk, IfErr};
ghost use Rattle.reg_op.specs.Contents.{Content};
ghost use Rattle.reg_engine.specs.Shelf.{disks, Has, IsSure, StaysOn, KeepsOn, IsUnrestored, IsUnkept, IsReadyOn, IsUnready, IsUnput};

use crate::fault::CliFault;
use byte_disk::Disk;
use reg_shelf::{Frame, keep, put, ready, restore};
use reg_state::Register;
use std::alloc::Global;

/// The register of the shelf.
pub fn restore_from<D: Disk>(alloc: Global, disk: &mut D) -> Result<Register, CliFault>
    ensures found { IfOk result (Has (disks D.tells D.seen D.images D.moment D.images_since D.failures) disk.old) }
    ensures sure { OnOk result (IsSure (disks D.tells D.seen D.images D.moment D.images_since D.failures) disk.new) }
    ensures stays { OnOk result (StaysOn (disks D.tells D.seen D.images D.moment D.images_since D.failures) disk.old disk.new) }
    ensures fault { IfErr result (IsUnrestored (disks D.tells D.seen D.images D.moment D.images_since D.failures) disk.old disk.new) }
    ensures tells { D.tells disk.new ≡ D.tells disk.old }
{
    match restore(alloc, disk) {
        Ok(register) => Ok(register),
        Err(fault) => Err(CliFault::of_shelf(fault)),
    }
}

/// Keeps the register on the shelf from which another one was restored.
pub fn keep_on<D: Disk>(alloc: Global, disk: &mut D, register: &Register) -> Result<(), CliFault>
    ensures kept { (was : Content) → Has (disks D.tells D.seen D.images D.moment D.images_since D.failures) disk.old was
        → IsSure (disks D.tells D.seen D.images D.moment D.images_since D.failures) disk.old
        → OnOk result (KeepsOn (disks D.tells D.seen D.images D.moment D.images_since D.failures) was register.now disk.old disk.new) }
    ensures fault { (was : Content) → Has (disks D.tells D.seen D.images D.moment D.images_since D.failures) disk.old was
        → IsSure (disks D.tells D.seen D.images D.moment D.images_since D.failures) disk.old
        → IfErr result (IsUnkept (disks D.tells D.seen D.images D.moment D.images_since D.failures) was register.now disk.old disk.new) }
    ensures tells { D.tells disk.new ≡ D.tells disk.old }
{
    match keep(alloc, disk, register) {
        Ok(()) => Ok(()),
        Err(fault) => Err(CliFault::of_shelf(fault)),
    }
}

/// Makes a frame of the register's file for the shelf from which another one was restored, and looks whether there is room
/// for it. Nothing is written.
pub fn ready_on<D: Disk>(
    alloc: Global,
    disk: &mut D,
    register: &Register,
) -> Result<Frame, CliFault>
    ensures ready { IfOk result (IsReadyOn (disks D.tells D.seen D.images D.moment D.images_since D.failures) disk.new register.now) }
    ensures sure { OnOk result (IsSure (disks D.tells D.seen D.images D.moment D.images_since D.failures) disk.new) }
    ensures stays { OnOk result (StaysOn (disks D.tells D.seen D.images D.moment D.images_since D.failures) disk.old disk.new) }
    ensures fault { (was : Content) → Has (disks D.tells D.seen D.images D.moment D.images_since D.failures) disk.old was
        → IfErr result (IsUnready (disks D.tells D.seen D.images D.moment D.images_since D.failures) register.now disk.old disk.new) }
    ensures tells { D.tells disk.new ≡ D.tells disk.old }
{
    match ready(alloc, disk, register) {
        Ok(frame) => Ok(frame),
        Err(fault) => Err(CliFault::of_shelf(fault)),
    }
}

/// Puts a frame that is ready on the shelf.
pub fn put_on<D: Disk>(disk: &mut D, frame: &Frame) -> Result<(), CliFault>
    ensures kept { (was next : Content) → Has (disks D.tells D.seen D.images D.moment D.images_since D.failures) disk.old was
        → IsSure (disks D.tells D.seen D.images D.moment D.images_since D.failures) disk.old
        → IsReadyOn (disks D.tells D.seen D.images D.moment D.images_since D.failures) disk.old next frame.now
        → OnOk result (KeepsOn (disks D.tells D.seen D.images D.moment D.images_since D.failures) was next disk.old disk.new) }
    ensures fault { (was next : Content) → Has (disks D.tells D.seen D.images D.moment D.images_since D.failures) disk.old was
        → IsSure (disks D.tells D.seen D.images D.moment D.images_since D.failures) disk.old
        → IsReadyOn (disks D.tells D.seen D.images D.moment D.images_since D.failures) disk.old next frame.now
        → IfErr result (IsUnput (disks D.tells D.seen D.images D.moment D.images_since D.failures) was next disk.old disk.new) }
    ensures tells { D.tells disk.new ≡ D.tells disk.old }
{
    match put(disk, frame) {
        Ok(()) => Ok(()),
        Err(fault) => Err(CliFault::of_shelf(fault)),
    }
}
