//! Files of version 1, for older programs. They have no notes.

ghost use Rattle.std.specs.Prelude.{◌≡◌, ◌↔◌, Some, None, Err, OnOk, IfOk, IfErr};
ghost use Rattle.reg_op.specs.Ids.{Id};
ghost use Rattle.reg_file.specs.Files.{HoldsFirst, IsFirstFault, IsTooLargeIn, IsUnmade, WritesFirst, first_in, first_noted};

use crate::fault::{FirstFileFault, WriteFileFault};
use crate::heads::FIRST_VERSION;
use crate::writing::{bytes_in, write_in};
use byte_io::Sink;
use reg_op::{Op, OpId};
use reg_state::Register;
use std::alloc::Global;

// The first of the operations that has a note.
fn first_in(ops: &[Op]) -> Option<OpId>
    ensures { result ≡ first_in ops.now }
{
    let mut rest = ops;
    while let Some((op, others)) = rest.split_first() {
        if !op.note().is_empty() {
            return Some(op.id());
        }
        rest = others;
    }
    None
}

/// The bytes of the register's file of version 1. A note, and then a file that would be too large, is reported before
/// anything is allocated.
pub fn write_first_bytes(alloc: Global, register: &Register) -> Result<Vec<u8>, FirstFileFault>
    ensures held { IfOk result (λ v. HoldsFirst v.items register.now) }
    ensures note { (id : Id) → (result ≡ Err (FirstFileFault.HasNote id)) ↔ (first_noted register.now.ops ≡ Some id) }
    ensures large { (result ≡ Err (FirstFileFault.Write WriteFileFault.TooLarge)) ↔ ((first_noted register.now.ops ≡ None) × IsTooLargeIn 1 register.now) }
    ensures unmade { IfErr result IsUnmade }
{
    if let Some(id) = first_in(register.ops().as_slice()) {
        return Err(FirstFileFault::HasNote(id));
    }
    match bytes_in(alloc, FIRST_VERSION, register) {
        Ok(bytes) => Ok(bytes),
        Err(fault) => Err(FirstFileFault::Write(fault)),
    }
}

/// Writes the register's file of version 1, and nothing else.
pub fn write_first_register<K: Sink>(
    alloc: Global,
    register: &Register,
    sink: &mut K,
) -> Result<(), FirstFileFault>
    ensures ok { OnOk result (WritesFirst register.now (K.state sink.old) (K.state sink.new)) }
    ensures note { (id : Id) → (result ≡ Err (FirstFileFault.HasNote id)) ↔ (first_noted register.now.ops ≡ Some id) }
    ensures large { (result ≡ Err (FirstFileFault.Write WriteFileFault.TooLarge)) ↔ ((first_noted register.now.ops ≡ None) × IsTooLargeIn 1 register.now) }
    ensures fault { IfErr result (IsFirstFault register.now (K.state sink.old) (K.state sink.new)) }
{
    if let Some(id) = first_in(register.ops().as_slice()) {
        return Err(FirstFileFault::HasNote(id));
    }
    match write_in(alloc, FIRST_VERSION, register, sink) {
        Ok(()) => Ok(()),
        Err(fault) => Err(FirstFileFault::Write(fault)),
    }
}
