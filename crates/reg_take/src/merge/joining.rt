//! The join of registers and pieces.

ghost use Rattle.std.specs.Prelude.{◌≡◌, Ok, IfOk, IfErr};
ghost use Rattle.reg_commands.specs.Merge.{IsUnjoined};
ghost use Rattle.reg_take.specs.Merging.{join_all};

use reg_commands::{join_pieces, join_registers};
use reg_engine::{CliFault, Parts};
use reg_state::Register;
use std::alloc::Global;

/// The join of all registers, and then of the pieces in order.
pub(crate) fn join_parts(alloc: Global, parts: &Parts) -> Result<Register, CliFault>
    ensures ok { IfOk result (λ r. join_all parts.now.registers.items parts.now.pieces.items ≡ Ok r) }
    ensures err { IfErr result (IsUnjoined (join_all parts.now.registers.items parts.now.pieces.items)) }
{
    let begun = match join_registers(alloc, &parts.registers) {
        Ok(begun) => begun,
        Err(fault) => return Err(fault),
    };
    match join_pieces(alloc, begun, &parts.pieces) {
        Ok(joined) => Ok(joined),
        Err(fault) => Err(fault),
    }
}
