//! The file in a slot.

ghost use Rattle.std.specs.Prelude.{◌≡◌, ◌⊎◌, IfOk, IfErr, IsErrOf};
ghost use Rattle.reg_file.specs.Contents.{Content};
ghost use Rattle.reg_file.specs.Files.{Holds, ReadsAs, IsTooLarge};

use byte_shelf::ShelfFault;
use reg_file::{ReadFileFault, Register, WriteFileFault, read_bytes, write_bytes};
use std::alloc::Global;

/// The bytes of the register's file.
pub fn file_of(alloc: Global, register: &Register) -> Result<Vec<u8>, ShelfFault>
    ensures held { IfOk result (λ v. Holds v.items register.now) }
    ensures large { IsErrOf result ShelfFault.TooLarge → IsTooLarge register.now }
    ensures faults { IfErr result (λ f. (f ≡ ShelfFault.TooLarge) ⊎ (f ≡ ShelfFault.Memory)) }
{
    match write_bytes(alloc, register) {
        Ok(bytes) => Ok(bytes),
        Err(WriteFileFault::TooLarge) => Err(ShelfFault::TooLarge),
        Err(_) => Err(ShelfFault::Memory),
    }
}

/// The register whose file the bytes are.
pub fn register_of(alloc: Global, bytes: &[u8]) -> Result<Register, ShelfFault>
    ensures held { IfOk result (λ r. ReadsAs bytes.now r) }
    ensures none { IsErrOf result ShelfFault.NotShelf → (x : Content) → ReadsAs bytes.now x → ⊥ }
    ensures faults { IfErr result (λ f. (f ≡ ShelfFault.NotShelf) ⊎ (f ≡ ShelfFault.Memory)) }
{
    match read_bytes(alloc, bytes) {
        Ok(register) => Ok(register),
        Err(ReadFileFault::Memory) => Err(ShelfFault::Memory),
        Err(_) => Err(ShelfFault::NotShelf),
    }
}
