//! The file of a register, some operations at a time.

ghost use Rattle.std.specs.Prelude.{◌≡◌, ◌<◌, ◌≤◌, ◌^◌, ◌++◌, ◌↔◌, ◌⊎◌, [], length, vec_capacity, if◌then◌else◌, Err, IfOk, IfErr};
ghost use Rattle.std.specs.List.{flat_map};
ghost use Rattle.reg_file.specs.Layout.{op_bytes, register_file};
ghost use Rattle.reg_file.specs.Files.{Holds, HoldsIn, IsTooLarge, IsTooLargeIn};

use crate::fault::WriteFileFault;
use crate::heads::{REGISTER, VERSION};
use crate::length::{length_of_register, size_of};
use crate::spelling::{put_head, put_number, put_op, put_ranges};
use byte_out::Chunks;
use reg_op::Op;
use reg_state::{Register, Run};
use std::alloc::{AllocError, Global};

/// The most bytes of a chunk with operations. One operation has at most 65,762.
const ROOM: usize = 131_072;

/// The file of a register in chunks: first the bytes before the operations, then some operations at a time. What a chunk needs
/// is allocated before the first one comes.
#[derive(Drop)]
pub struct RegisterChunks<'a> {
    version: u8,
    ops: &'a [Op],
    size: usize,
    /// The bytes before the operations.
    front: Vec<u8>,
    /// Whether these are still to come, and whether they came last.
    has_front: bool,
    is_front: bool,
    /// The operations that are still to come.
    rest: &'a [Op],
    /// Those that came last.
    held: Vec<u8>,
    ghost sized: { size ≡ length (front.items ++ flat_map (op_bytes version) ops.now) },
    ghost begun: { 0 < length front.items },
    ghost roomy: { 131072 ≤ vec_capacity held },
}

impl<'a> RegisterChunks<'a> {
    /// The register's file. A file that exceeds the limit is reported before anything is allocated.
    pub fn new(alloc: Global, register: &'a Register) -> Result<RegisterChunks<'a>, WriteFileFault>
        ensures held { IfOk result (λ c. Holds (⟦<RegisterChunks<'a> as Chunks>⟧.bytes c) register.entry.now) }
        ensures large { (result ≡ Err WriteFileFault.TooLarge) ↔ IsTooLarge register.entry.now }
        ensures memory { IfErr result (λ f. (f ≡ WriteFileFault.TooLarge) ⊎ (f ≡ WriteFileFault.Memory)) }
    {
        RegisterChunks::in_version(alloc, VERSION, register)
    }

    /// The register's file in a version.
    pub(crate) fn in_version(
        alloc: Global,
        version: u8,
        register: &'a Register,
    ) -> Result<RegisterChunks<'a>, WriteFileFault>
        ensures held { IfOk result (λ c. HoldsIn version (⟦<RegisterChunks<'a> as Chunks>⟧.bytes c) register.entry.now) }
        ensures large { (result ≡ Err WriteFileFault.TooLarge) ↔ IsTooLargeIn version register.entry.now }
        ensures memory { IfErr result (λ f. (f ≡ WriteFileFault.TooLarge) ⊎ (f ≡ WriteFileFault.Memory)) }
    {
        let ops = register.ops().as_slice();
        let runs = register.seen().runs();
        let Some(size) = length_of_register(version, ops, runs) else {
            return Err(WriteFileFault::TooLarge);
        };
        match RegisterChunks::of(alloc, version, ops, runs, size) {
            Ok(chunks) => Ok(chunks),
            Err(_) => Err(WriteFileFault::Memory),
        }
    }

    // The file of operations and runs, which has this size.
    fn of(
        alloc: Global,
        version: u8,
        ops: &'a [Op],
        runs: &[Run],
        size: usize,
    ) -> Result<RegisterChunks<'a>, AllocError>
        requires ops { length ops.now < 2 ^ 32 }
        requires runs { length runs.now < 2 ^ 32 }
        requires size { size ≡ length (register_file version ops.now runs.now) }
        ensures { IfOk result (λ c. ⟦<RegisterChunks<'a> as Chunks>⟧.bytes c ≡ register_file version ops.entry.now runs.now) }
    {
        let front = front_of(alloc, version, ops, runs)?;
        let held = Vec::with_capacity(alloc, ROOM)?;
        Ok(RegisterChunks {
            version,
            ops,
            size,
            front,
            has_front: true,
            is_front: false,
            rest: ops,
            held,
        })
    }
}

// The bytes before the operations.
fn front_of(alloc: Global, version: u8, ops: &[Op], runs: &[Run]) -> Result<Vec<u8>, AllocError>
    requires ops { length ops.now < 2 ^ 32 }
    requires runs { length runs.now < 2 ^ 32 }
    ensures whole { IfOk result (λ v. v.items ++ flat_map (op_bytes version) ops.now ≡ register_file version ops.now runs.now) }
    ensures begun { IfOk result (λ v. 0 < length v.items) }
{
    let mut front = Vec::new(alloc);
    put_head(&mut front, version, REGISTER)?;
    put_ranges(&mut front, runs)?;
    put_number(&mut front, ops.len() as u32)?;
    Ok(front)
}

// Spells operations as long as there is room for the next one, and returns the others.
fn spell_some<'a>(held: &mut Vec<u8>, version: u8, ops: &'a [Op]) -> &'a [Op]
    requires room { ROOM ≤ vec_capacity held.old }
    ensures spelled { flat_map (op_bytes version) ops.now ≡ held.new.items ++ flat_map (op_bytes version) result.now }
    ensures end { held.new.items ≡ [] → result.now ≡ [] }
    ensures room { ROOM ≤ vec_capacity held.new }
{
    held.clear();
    let mut rest = ops;
    while let Some((op, others)) = rest.split_first() {
        if held.len() + size_of(version, op) > ROOM {
            return rest;
        }
        let Ok(()) = put_op(held, version, op) else {
            return rest;
        };
        rest = others;
    }
    rest
}

impl Chunks for RegisterChunks<'_> {
    ghost bytes = { λ s. s.front.items ++ flat_map (op_bytes s.version) s.ops.now };

    ghost left = { λ s. (if s.has_front then s.front.items else []) ++ flat_map (op_bytes s.version) s.rest.now };

    ghost last = { λ s. if s.is_front then s.front.items else s.held.items };

    fn len(&self) -> usize {
        self.size
    }

    fn restart(&mut self) {
        self.has_front = true;
        self.rest = self.ops;
    }

    fn advance(&mut self) -> bool {
        if self.has_front {
            self.has_front = false;
            self.is_front = true;
            return true;
        }
        self.is_front = false;
        self.rest = spell_some(&mut self.held, self.version, self.rest);
        !self.held.is_empty()
    }

    fn chunk(&self) -> &[u8] {
        if self.is_front {
            return &self.front;
        }
        &self.held
    }
}
