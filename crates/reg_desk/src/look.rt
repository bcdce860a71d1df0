//! Inspects files and shelves: the register that each has, or its fault.

ghost use Rattle.std.specs.Prelude.{◌≡◌, IfOk, OnErr};
ghost use Rattle.reg_engine.specs.Inputs.{NeverFails};
ghost use Rattle.reg_engine.specs.Shelf.{disks, StaysOn};
ghost use Rattle.reg_desk.specs.Look.{HasLook, IsLook, IsLookOf, IsShelfLook, IsRegisterLook, look_if};

use byte_disk::Disk;
use byte_io::{InFault, LateSource, Source, read_up_to};
use byte_shelf::{ShelfFault, restore};
use reg_engine::{InputFault, ShelfProblem};
use reg_file::{MAX_FILE, ReadFileFault, read_bytes};
use reg_query::{Figures, figures_of};
use reg_state::Register;
use std::alloc::{AllocError, Global};

/// The result of inspecting a file or a shelf.
#[derive(Clone, Copy)]
pub enum Look {
    /// A register with this file size, in a file or on a shelf.
    Figures { bytes: usize, figures: Figures },
    /// It was read completely. It has this size and is not a register.
    NoRegister { bytes: usize, fault: InputFault },
    /// It was not read completely.
    Unread(InputFault),
    /// No register was restored from the shelf.
    NoShelf(ShelfProblem),
}

/// A disk that was opened, or why it was not.
#[derive(Drop)]
pub enum OpenedDisk<S> {
    Source(S),
    Unopened(ShelfProblem),
}

/// A file or a shelf to inspect.
pub trait Inspect {
    ghost use Rattle.std.specs.Prelude.{IfOk, OnErr};
    ghost use Rattle.reg_desk.specs.declared.look.Look.{Look};

    /// The result of inspecting it.
    ghost looks: { Self → Self → Look → Type 0 };

    /// It did not fail, and is unchanged.
    ghost stays: { Self → Self → Type 0 };

    fn look(&mut self, alloc: Global) -> Result<Look, AllocError>
        ensures looks { IfOk result (looks self.old self.new) }
        ensures stays { OnErr result (stays self.old self.new) };
}

/// A file that is opened when it is inspected, and closed then.
#[derive(Drop)]
pub struct LateAt<S> {
    pub file: S,
}

impl<S: LateSource> Inspect for LateAt<S> {
    ghost use Rattle.reg_engine.specs.Inputs.{NeverFails};
    ghost use Rattle.reg_desk.specs.Look.{LateLooksAt};

    ghost looks = { λ old. λ new. λ l. LateLooksAt (S.state old.file) (S.state new.file) (S.shut new.file) l };

    ghost stays = { λ old. λ new. NeverFails (S.state old.file) (S.state new.file) };

    fn look(&mut self, alloc: Global) -> Result<Look, AllocError> {
        let look = look_at(alloc, &mut self.file);
        self.file.close();
        match look {
            Ok(look) => Ok(look_if(look, self.file.is_shut())),
            Err(error) => Err(error),
        }
    }
}

// The look at a file whose first read failed to open it, or did not.
fn look_if(look: Look, shut: bool) -> Look
    ensures { result ≡ look_if shut look }
{
    match look {
        Look::Unread(InputFault::ReadFailed(_)) if shut => Look::Unread(InputFault::NotOpened),
        look => look,
    }
}

/// A shelf, opened or not.
#[derive(Drop)]
pub struct ShelfAt<D> {
    pub opened: OpenedDisk<D>,
}

impl<D: Disk> Inspect for ShelfAt<D> {
    ghost use Rattle.reg_engine.specs.Shelf.{disks};
    ghost use Rattle.reg_desk.specs.Look.{opened_state, itself, ShelfLooksAt, ShelfStaysAt};

    ghost looks = { λ old. λ new. λ l. ShelfLooksAt (disks D.tells D.seen D.images D.moment D.images_since D.failures) (opened_state itself old.opened) (opened_state itself new.opened) l };

    ghost stays = { λ old. λ new. ShelfStaysAt (disks D.tells D.seen D.images D.moment D.images_since D.failures) (opened_state itself old.opened) (opened_state itself new.opened) };

    fn look(&mut self, alloc: Global) -> Result<Look, AllocError> {
        match &mut self.opened {
            OpenedDisk::Source(disk) => look_on(alloc, disk),
            OpenedDisk::Unopened(problem) => Ok(Look::NoShelf(*problem)),
        }
    }
}

// Reads all bytes of a source, and inspects them.
fn look_at<S: Source>(alloc: Global, source: &mut S) -> Result<Look, AllocError>
    ensures look { IfOk result (IsLook (S.state source.old) (S.state source.new)) }
    ensures memory { OnErr result (NeverFails (S.state source.old) (S.state source.new)) }
{
    let bytes = match read_up_to(alloc, source, MAX_FILE + 1) {
        Ok(bytes) => bytes,
        Err(InFault::ReadFailed(n)) => return Ok(Look::Unread(InputFault::ReadFailed(n))),
        Err(InFault::Memory) => return Err(AllocError),
    };
    let look = look_in(alloc, &bytes)?;
    Ok(look)
}

// The result for these bytes.
fn look_in(alloc: Global, bytes: &[u8]) -> Result<Look, AllocError>
    ensures { IfOk result (HasLook bytes.now) }
{
    let register = match read_bytes(alloc, bytes) {
        Ok(register) => register,
        Err(ReadFileFault::Memory) => return Err(AllocError),
        Err(ReadFileFault::TooLarge) => return Ok(Look::Unread(InputFault::TooLarge)),
        Err(ReadFileFault::ReadFailed(_)) => unreachable!(),
        Err(ReadFileFault::File { fault, place }) => {
            return Ok(Look::NoRegister {
                bytes: bytes.len(),
                fault: InputFault::BadFile { fault, place },
            });
        }
    };
    let look = look_of(alloc, &register, bytes.len())?;
    Ok(look)
}

// The result for a register in a file with this many bytes.
fn look_of(alloc: Global, register: &Register, bytes: usize) -> Result<Look, AllocError>
    ensures { IfOk result (IsLookOf register.now bytes) }
{
    let figures = figures_of(alloc, register)?;
    Ok(Look::Figures { bytes, figures })
}

// The result for the bytes of a shelf, which hold a register or none.
fn register_look(alloc: Global, bytes: &[u8]) -> Result<Look, AllocError>
    ensures { IfOk result (IsRegisterLook bytes.now) }
{
    let register = match read_bytes(alloc, bytes) {
        Ok(register) => register,
        Err(ReadFileFault::Memory) => return Err(AllocError),
        Err(_) => return Ok(Look::NoShelf(ShelfProblem::NotShelf)),
    };
    let look = look_of(alloc, &register, bytes.len())?;
    Ok(look)
}

// Inspects the register of a shelf.
fn look_on<D: Disk>(alloc: Global, disk: &mut D) -> Result<Look, AllocError>
    ensures look { IfOk result (IsShelfLook (disks D.tells D.seen D.images D.moment D.images_since D.failures) disk.old disk.new) }
    ensures stays { OnErr result (StaysOn (disks D.tells D.seen D.images D.moment D.images_since D.failures) disk.old disk.new) }
    ensures tells { D.tells disk.new ≡ D.tells disk.old }
{
    let bytes = match restore(alloc, disk) {
        Ok(bytes) => bytes,
        Err(ShelfFault::NotShelf) => return Ok(Look::NoShelf(ShelfProblem::NotShelf)),
        Err(ShelfFault::DiskFailed) => return Ok(Look::NoShelf(ShelfProblem::DiskFailed)),
        Err(ShelfFault::BadSize) => unreachable!(),
        Err(ShelfFault::TooLarge) => unreachable!(),
        Err(ShelfFault::Memory) => return Err(AllocError),
    };
    match register_look(alloc, &bytes) {
        Ok(look) => Ok(look),
        Err(_) => Err(AllocError),
    }
}
