//! The head of a shelf: the gate, which selects the slot in use, and the size of a slot.

ghost use Rattle.std.specs.Prelude.{◌≡◌, ◌⊎◌, ◌-◌, ◌%◌, false, IsTrue, IfOk, IfErr, IsErrOf, OnOk, length};
ghost use Rattle.byte_disk.specs.Disk.{Only};
ghost use Rattle.byte_shelf.specs.Shelf.{HasHead, HasNoHead, IsSize, place};
ghost use Rattle.byte_shelf.specs.Keep.{AddsNothing, CountsFault};

use crate::fault::ShelfFault;
use byte_disk::Disk;

/// The limits of the size of a slot.
pub const LEAST: u32 = 14;

/// The greatest size of a slot.
pub const MOST: u32 = 67_108_864;

#[derive(Clone, Copy)]
pub(crate) struct SlotHead {
    pub(crate) gate: u8,
    pub(crate) size: u32,
}

/// Whether a shelf may have this size.
pub(crate) fn is_size(size: u32) -> bool
    ensures some { IsTrue result → IsSize size }
    ensures none { result ≡ false → IsSize size → ⊥ }
{
    LEAST <= size && size <= MOST
}

fn head_in(bytes: &[u8]) -> SlotHead
    requires { length bytes.now ≡ 5 }
    ensures { HasHead bytes.now result.gate result.size }
{
    SlotHead {
        gate: bytes[0],
        size: u32::from_be_bytes([bytes[1], bytes[2], bytes[3], bytes[4]]),
    }
}

/// The gate, and a size that a shelf may have.
pub(crate) fn read_head<D: Disk>(disk: &mut D) -> Result<SlotHead, ShelfFault>
    ensures head { IsTrue (D.tells disk.old)
        → IfOk result (λ h. HasHead (D.seen disk.old) h.gate h.size) }
    ensures range { IfOk result (λ h. IsSize h.size) }
    ensures not_shelf { IsTrue (D.tells disk.old)
        → IsErrOf result ShelfFault.NotShelf → HasNoHead (D.seen disk.old) }
    ensures faults { IfErr result (λ f. (f ≡ ShelfFault.NotShelf) ⊎ (f ≡ ShelfFault.DiskFailed)) }
    ensures nothing { IsTrue (D.tells disk.old)
        → AddsNothing D.seen D.images D.moment D.images_since disk.old disk.new }
    ensures counts { CountsFault result (D.failures disk.old) (D.failures disk.new) }
    ensures tells { D.tells disk.new ≡ D.tells disk.old }
{
    let mut bytes = [0u8; 5];
    let Ok(n) = disk.read_at(0, &mut bytes) else {
        return Err(ShelfFault::DiskFailed);
    };
    if n < 5 {
        return Err(ShelfFault::NotShelf);
    }
    let head = head_in(&bytes);
    if !is_size(head.size) {
        return Err(ShelfFault::NotShelf);
    }
    Ok(head)
}

/// Syncs the disk.
pub(crate) fn first_sync<D: Disk>(disk: &mut D) -> Result<(), ShelfFault>
    ensures only { IsTrue (D.tells disk.old)
        → OnOk result (Only (D.seen disk.new) (D.images disk.new)) }
    ensures faults { IfErr result (λ f. f ≡ ShelfFault.DiskFailed) }
    ensures nothing { IsTrue (D.tells disk.old)
        → AddsNothing D.seen D.images D.moment D.images_since disk.old disk.new }
    ensures counts { CountsFault result (D.failures disk.old) (D.failures disk.new) }
    ensures tells { D.tells disk.new ≡ D.tells disk.old }
{
    if disk.sync().is_err() {
        return Err(ShelfFault::DiskFailed);
    }
    Ok(())
}

/// Syncs the disk, and reads the head.
pub(crate) fn open_shelf<D: Disk>(disk: &mut D) -> Result<SlotHead, ShelfFault>
    ensures only { IsTrue (D.tells disk.old)
        → OnOk result (Only (D.seen disk.new) (D.images disk.new)) }
    ensures head { IsTrue (D.tells disk.old)
        → IfOk result (λ h. HasHead (D.seen disk.old) h.gate h.size) }
    ensures range { IfOk result (λ h. IsSize h.size) }
    ensures not_shelf { IsTrue (D.tells disk.old)
        → IsErrOf result ShelfFault.NotShelf → HasNoHead (D.seen disk.old) }
    ensures faults { IfErr result (λ f. (f ≡ ShelfFault.NotShelf) ⊎ (f ≡ ShelfFault.DiskFailed)) }
    ensures nothing { IsTrue (D.tells disk.old)
        → AddsNothing D.seen D.images D.moment D.images_since disk.old disk.new }
    ensures counts { CountsFault result (D.failures disk.old) (D.failures disk.new) }
    ensures tells { D.tells disk.new ≡ D.tells disk.old }
{
    first_sync(disk)?;
    read_head(disk)
}

/// The offset of the slot that is not in use.
pub(crate) fn spare_place(head: &SlotHead) -> u64
    ensures { result ≡ place head.now.size (1 - head.now.gate % 2) }
{
    if head.gate % 2 == 1 {
        5
    } else {
        9 + u64::from(head.size)
    }
}

/// The offset of the slot in use.
pub(crate) fn place_in_use(head: &SlotHead) -> u64
    ensures { result ≡ place head.now.size (head.now.gate % 2) }
{
    if head.gate % 2 == 0 {
        5
    } else {
        9 + u64::from(head.size)
    }
}
