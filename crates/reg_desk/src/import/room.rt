//! Whether the register that an import makes has room in its store.

ghost use Rattle.std.specs.Prelude.{◌≡◌, ◌⊎◌, ℕ, ◌≤◌, ◌<◌, IsTrue, IfOk, IfErr, OnOk, IsErrOf, length};
ghost use Rattle.byte_shelf.specs.Shelf.{HasHead};
ghost use Rattle.byte_shelf.specs.Keep.{AddsNothing, CountsFault};
ghost use Rattle.reg_op.specs.Contents.{Content};
ghost use Rattle.reg_engine.specs.Shelf.{disks};
ghost use Rattle.reg_engine.specs.Store.{on_shelf};
ghost use Rattle.reg_desk.specs.ImportRoom.{HasFile, HasNoFile, room_on_shelf};

use byte_disk::Disk;
use byte_io::Source;
use byte_shelf::ShelfFault;
use reg_engine::{CliFault, Either, OfFile, OnShelf, OutFault, ShelfProblem, Store};
use reg_file::{WriteFileFault, write_bytes};
use reg_guard::{TriedFile, TriedShelf};
use reg_state::Register;
use std::alloc::Global;

/// A store that tells whether it has room for a register, without keeping it.
pub trait HasRoom: Store {
    ghost use Rattle.std.specs.Prelude.{OnOk, IfErr};
    ghost use Rattle.reg_op.specs.Contents.{Content};
    ghost use Rattle.reg_desk.specs.ImportRoom.{Room};

    /// What holds if there is room, and if there is not.
    ghost room: { Self → Self → Room };

    /// Whether there is room for the register that a command made of the one that was loaded.
    fn has_room(&mut self, alloc: Global, register: &Register) -> Result<(), CliFault>
        ensures same { Self.same self.old self.new }
        ensures fits { (first : Self) (was : Content) → Self.same first self.old → (Self.around first self.old).came was
            → OnOk result ((room first self.new).fits was register.now) }
        ensures full { (first : Self) (was : Content) → Self.same first self.old → (Self.around first self.old).came was
            → IfErr result (λ f. (room first self.new).full was register.now f) };
}

impl<S: Source> HasRoom for OfFile<'_, S> {
    ghost use Rattle.reg_desk.specs.ImportRoom.{room_in_file};
    ghost use Rattle.reg_engine.specs.Store.{of_file};

    ghost room = { λ old. λ new. room_in_file (of_file (S.state old.source.now) (S.state new.source.now)) };

    fn has_room(&mut self, alloc: Global, register: &Register) -> Result<(), CliFault> {
        match file_room(alloc, register) {
            Ok(()) => Ok(()),
            Err(fault) => Err(fault),
        }
    }
}

impl<S: Source> HasRoom for TriedFile<'_, S> {
    ghost use Rattle.reg_desk.specs.ImportRoom.{room_in_file};
    ghost use Rattle.reg_guard.specs.Stores.{tried_file};

    ghost room = { λ old. λ new. room_in_file (tried_file (S.state old.source.now) (S.state new.source.now)) };

    fn has_room(&mut self, alloc: Global, register: &Register) -> Result<(), CliFault> {
        match file_room(alloc, register) {
            Ok(()) => Ok(()),
            Err(fault) => Err(fault),
        }
    }
}

impl<A: HasRoom, B: HasRoom> HasRoom for Either<A, B> {
    ghost use Rattle.reg_desk.specs.ImportRoom.{room_either};

    ghost room = { λ old. λ new. room_either A.room B.room old new };

    fn has_room(&mut self, alloc: Global, register: &Register) -> Result<(), CliFault> {
        match self {
            Either::One(store) => store.has_room(alloc, register),
            Either::Other(store) => store.has_room(alloc, register),
        }
    }
}

// Whether the register has a file that is not too large.
fn file_room(alloc: Global, register: &Register) -> Result<(), CliFault>
    ensures fits { OnOk result (HasFile register.now) }
    ensures full { IfErr result (λ f. HasNoFile register.now f) }
{
    let bytes = match write_bytes(alloc, register) {
        Ok(bytes) => bytes,
        Err(WriteFileFault::TooLarge) => return Err(CliFault::Out(OutFault::TooLarge)),
        Err(_) => return Err(CliFault::Memory),
    };
    drop(bytes);
    Ok(())
}

impl<D: Disk> HasRoom for OnShelf<'_, D> {
    ghost use Rattle.reg_engine.specs.Shelf.{disks};
    ghost use Rattle.reg_desk.specs.ImportRoom.{room_on_shelf};

    ghost room = { λ old. λ new. room_on_shelf (disks D.tells D.seen D.images D.moment D.images_since D.failures) old.disk.now new.disk.now };

    fn has_room(&mut self, alloc: Global, register: &Register) -> Result<(), CliFault> {
        match shelf_room(alloc, self.disk, register) {
            Ok(()) => Ok(()),
            Err(fault) => Err(fault),
        }
    }
}

impl<D: Disk> HasRoom for TriedShelf<'_, D> {
    ghost use Rattle.reg_engine.specs.Shelf.{disks};
    ghost use Rattle.reg_desk.specs.ImportRoom.{room_on_shelf};

    ghost room = { λ old. λ new. room_on_shelf (disks D.tells D.seen D.images D.moment D.images_since D.failures) old.disk.now new.disk.now };

    fn has_room(&mut self, alloc: Global, register: &Register) -> Result<(), CliFault> {
        match shelf_room(alloc, self.disk, register) {
            Ok(()) => Ok(()),
            Err(fault) => Err(fault),
        }
    }
}

// Whether the shelf from which another register was restored has room for this one.
fn shelf_room<D: Disk>(alloc: Global, disk: &mut D, register: &Register) -> Result<(), CliFault>
    ensures fits { (first : D) (was : Content) → D.tells disk.old ≡ D.tells first
        → (on_shelf (disks D.tells D.seen D.images D.moment D.images_since D.failures) first disk.old).came was
        → OnOk result ((room_on_shelf (disks D.tells D.seen D.images D.moment D.images_since D.failures) first disk.new).fits was register.now) }
    ensures full { (first : D) (was : Content) → D.tells disk.old ≡ D.tells first
        → (on_shelf (disks D.tells D.seen D.images D.moment D.images_since D.failures) first disk.old).came was
        → IfErr result (λ f. (room_on_shelf (disks D.tells D.seen D.images D.moment D.images_since D.failures) first disk.new).full was register.now f) }
    ensures tells { D.tells disk.new ≡ D.tells disk.old }
{
    let bytes = match write_bytes(alloc, register) {
        Ok(bytes) => bytes,
        Err(WriteFileFault::TooLarge) => return Err(CliFault::Shelf(ShelfProblem::TooLarge)),
        Err(_) => return Err(CliFault::Memory),
    };
    match room_for(disk, bytes.len()) {
        Ok(()) => Ok(()),
        Err(fault) => Err(CliFault::of_shelf(fault)),
    }
}

// The gate of a shelf, and the size of its slots.
#[derive(Clone, Copy)]
struct ShelfHead {
    gate: u8,
    size: u32,
}

fn head_in(bytes: &[u8]) -> ShelfHead
    requires { length bytes.now ≡ 5 }
    ensures { HasHead bytes.now result.gate result.size }
{
    ShelfHead {
        gate: bytes[0],
        size: u32::from_be_bytes([bytes[1], bytes[2], bytes[3], bytes[4]]),
    }
}

// The head of the shelf as which the disk reads.
fn read_head<D: Disk>(disk: &mut D) -> Result<ShelfHead, ShelfFault>
    ensures head { IsTrue (D.tells disk.old) → IfOk result (λ h. HasHead (D.seen disk.old) h.gate h.size) }
    ensures short { IsTrue (D.tells disk.old) → IsErrOf result ShelfFault.NotShelf → length (D.seen disk.old) < 5 }
    ensures faults { IfErr result (λ f. (f ≡ ShelfFault.NotShelf) ⊎ (f ≡ ShelfFault.DiskFailed)) }
    ensures nothing { IsTrue (D.tells disk.old) → AddsNothing D.seen D.images D.moment D.images_since disk.old disk.new }
    ensures counts { CountsFault result (D.failures disk.old) (D.failures disk.new) }
    ensures tells { D.tells disk.new ≡ D.tells disk.old }
{
    let mut bytes = [0u8; 5];
    let Ok(n) = disk.read_at(0, &mut bytes) else {
        return Err(ShelfFault::DiskFailed);
    };
    if n < 5 {
        return Err(ShelfFault::NotShelf);
    }
    Ok(head_in(&bytes))
}

// Whether its slots have room for this many bytes.
fn room_for<D: Disk>(disk: &mut D, len: usize) -> Result<(), ShelfFault>
    ensures room { IsTrue (D.tells disk.old) → OnOk result ((gate : ℕ) × (size : ℕ) × HasHead (D.seen disk.old) gate size × (len ≤ size)) }
    ensures large { IsTrue (D.tells disk.old) → IsErrOf result ShelfFault.TooLarge
        → (gate : ℕ) × (size : ℕ) × HasHead (D.seen disk.old) gate size × (size < len) }
    ensures short { IsTrue (D.tells disk.old) → IsErrOf result ShelfFault.NotShelf → length (D.seen disk.old) < 5 }
    ensures faults { IfErr result (λ f. (f ≡ ShelfFault.NotShelf) ⊎ (f ≡ ShelfFault.DiskFailed) ⊎ (f ≡ ShelfFault.TooLarge)) }
    ensures nothing { IsTrue (D.tells disk.old) → AddsNothing D.seen D.images D.moment D.images_since disk.old disk.new }
    ensures counts { CountsFault result (D.failures disk.old) (D.failures disk.new) }
    ensures tells { D.tells disk.new ≡ D.tells disk.old }
{
    let head = match read_head(disk) {
        Ok(head) => head,
        Err(fault) => return Err(fault),
    };
    if len > head.size as usize {
        return Err(ShelfFault::TooLarge);
    }
    Ok(())
}
