//! Files of registers, written to vectors and sinks.

ghost use Rattle.std.specs.Prelude.{◌≡◌, ◌<◌, ◌^◌, ◌↔◌, ◌⊎◌, length, Err, OnOk, IfOk, IfErr};
ghost use Rattle.reg_file.specs.Layout.{register_file};
ghost use Rattle.reg_file.specs.Files.{Holds, HoldsIn, IsTooLarge, IsTooLargeIn, IsWriteFault, IsWriteFaultBy, Writes, WritesBy};

use crate::chunks::RegisterChunks;
use crate::fault::WriteFileFault;
use crate::heads::{REGISTER, VERSION};
use crate::length::length_of_register;
use crate::spelling::{put_head, put_ops, put_ranges};
use byte_io::Sink;
use byte_out::write_chunks;
use reg_op::Op;
use reg_state::{Register, Run};
use std::alloc::{AllocError, Global};

// The file of operations and runs, in one allocation of its size.
fn spell(
    alloc: Global,
    version: u8,
    ops: &[Op],
    runs: &[Run],
    size: usize,
) -> Result<Vec<u8>, AllocError>
    requires ops { length ops.now < 2 ^ 32 }
    requires runs { length runs.now < 2 ^ 32 }
    ensures { IfOk result (λ out. out.items ≡ register_file version ops.now runs.now) }
{
    let mut out = Vec::with_capacity(alloc, size)?;
    put_head(&mut out, version, REGISTER)?;
    put_ranges(&mut out, runs)?;
    put_ops(&mut out, version, ops)?;
    Ok(out)
}

/// The bytes of the register's file in a version.
pub fn bytes_in(alloc: Global, version: u8, register: &Register) -> Result<Vec<u8>, WriteFileFault>
    ensures held { IfOk result (λ v. HoldsIn version v.items register.now) }
    ensures large { (result ≡ Err WriteFileFault.TooLarge) ↔ IsTooLargeIn version register.now }
    ensures memory { IfErr result (λ f. (f ≡ WriteFileFault.TooLarge) ⊎ (f ≡ WriteFileFault.Memory)) }
{
    let ops = register.ops().as_slice();
    let runs = register.seen().runs();
    let Some(size) = length_of_register(version, ops, runs) else {
        return Err(WriteFileFault::TooLarge);
    };
    match spell(alloc, version, ops, runs, size) {
        Ok(out) => Ok(out),
        Err(_) => Err(WriteFileFault::Memory),
    }
}

/// Writes the register's file in a version, and nothing else.
pub fn write_in<K: Sink>(
    alloc: Global,
    version: u8,
    register: &Register,
    sink: &mut K,
) -> Result<(), WriteFileFault>
    ensures ok { OnOk result (WritesBy (λ bytes. HoldsIn version bytes register.now) (K.state sink.old) (K.state sink.new)) }
    ensures large { (result ≡ Err WriteFileFault.TooLarge) ↔ IsTooLargeIn version register.now }
    ensures fault { IfErr result (IsWriteFaultBy (λ bytes. HoldsIn version bytes register.now) (K.state sink.old) (K.state sink.new)) }
{
    let mut chunks = match RegisterChunks::in_version(alloc, version, register) {
        Ok(chunks) => chunks,
        Err(fault) => return Err(fault),
    };
    match write_chunks(sink, &mut chunks) {
        Ok(()) => Ok(()),
        Err(fault) => Err(WriteFileFault::WriteFailed(fault.written)),
    }
}

/// The bytes of the register's file. A file that exceeds the limit is reported before anything is allocated.
pub fn write_bytes(alloc: Global, register: &Register) -> Result<Vec<u8>, WriteFileFault>
    ensures held { IfOk result (λ v. Holds v.items register.now) }
    ensures large { (result ≡ Err WriteFileFault.TooLarge) ↔ IsTooLarge register.now }
    ensures memory { IfErr result (λ f. (f ≡ WriteFileFault.TooLarge) ⊎ (f ≡ WriteFileFault.Memory)) }
{
    bytes_in(alloc, VERSION, register)
}

/// Writes the register's file, and nothing else.
pub fn write_register<K: Sink>(
    alloc: Global,
    register: &Register,
    sink: &mut K,
) -> Result<(), WriteFileFault>
    ensures ok { OnOk result (Writes register.now (K.state sink.old) (K.state sink.new)) }
    ensures large { (result ≡ Err WriteFileFault.TooLarge) ↔ IsTooLarge register.now }
    ensures fault { IfErr result (IsWriteFault register.now (K.state sink.old) (K.state sink.new)) }
{
    write_in(alloc, VERSION, register, sink)
}
