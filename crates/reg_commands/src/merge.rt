//! The commands `new` and `merge`.

ghost use Rattle.std.specs.Prelude.{◌≡◌, ◌≢◌, map, None, Ok, Err, IfOk, OnOk, IfErr};
ghost use Rattle.byte_out.specs.Input.{kept_of, first_kept};
ghost use Rattle.reg_op.specs.Joining.{all_joined};
ghost use Rattle.reg_op.specs.Contents.{nothing, joined};
ghost use Rattle.reg_tree.specs.Chain.{with_pieces};
ghost use Rattle.reg_engine.specs.Outputs.{PublishesFile, IsUnpublished};
ghost use Rattle.reg_commands.specs.Merge.{ends, begun, IsUnjoined, IsMerged, IsMergeFault};

use byte_out::{Input, Place, first_kept};
use reg_engine::{CliFault, OutFault, Parts, Refusal, publish_register, read_parts};
use reg_state::{JoinFault, Piece, Register};
use reg_tree as tree;
use std::alloc::Global;
use std::mem::forget;

/// Writes the file of the empty register.
pub fn run_new<P: Place>(alloc: Global, place: &mut P) -> Result<(), CliFault>
    ensures published { OnOk result (PublishesFile nothing None (P.state place.old) (P.state place.new)) }
    ensures fault { IfErr result (IsUnpublished nothing None (P.state place.old) (P.state place.new)) }
    ensures small { result ≢ Err (CliFault.Out OutFault.TooLarge) }
{
    match publish_register(alloc, &Register::new(alloc), None, place) {
        Ok(()) => Ok(()),
        Err(fault) => Err(fault),
    }
}

/// The join of all registers, to which pieces are joined.
pub fn join_registers(alloc: Global, registers: &[Register]) -> Result<Register, CliFault>
    ensures ok { IfOk result (λ r. begun (all_joined joined (Ok nothing) registers.now) ≡ Ok r) }
    ensures err { IfErr result (IsUnjoined (begun (all_joined joined (Ok nothing) registers.now))) }
{
    match tree::join_registers(alloc, registers) {
        Ok(joined) => Ok(joined),
        Err(JoinFault::Clash(id)) => Err(CliFault::Refused(Refusal::Clash(id))),
        Err(JoinFault::Memory) => Err(CliFault::Memory),
    }
}

/// The pieces joined to the register, one after another.
pub fn join_pieces(
    alloc: Global,
    register: Register,
    pieces: &[Piece],
) -> Result<Register, CliFault>
    ensures ok { IfOk result (λ r. with_pieces (Ok register) pieces.now ≡ Ok r) }
    ensures err { IfErr result (IsUnjoined (with_pieces (Ok register) pieces.now)) }
{
    match tree::join_pieces(alloc, register, pieces) {
        Ok(joined) => Ok(joined),
        Err(fault) => Err(CliFault::of_piece(fault)),
    }
}

/// Reads a register or a piece from each source, and writes the file of their join: all registers, and then the pieces in
/// order. Sources are numbered from 1. If one of them is the file that is replaced, that file must not have changed since it
/// was read. The memory of the registers is not freed.
pub fn run_merge<S: Input, P: Place>(
    alloc: Global,
    sources: &mut [S],
    place: &mut P,
) -> Result<(), CliFault>
    ensures merged { OnOk result (IsMerged
        (ends (map S.state sources.old) None (P.state place.old))
        (ends (map S.state sources.new) (first_kept (map (λ s. kept_of (S.keeps s) (S.state s)) sources.new)) (P.state place.new))) }
    ensures fault { IfErr result (IsMergeFault
        (ends (map S.state sources.old) None (P.state place.old))
        (ends (map S.state sources.new) (first_kept (map (λ s. kept_of (S.keeps s) (S.state s)) sources.new)) (P.state place.new))) }
{
    let Parts { registers, pieces } = match read_parts(alloc, sources) {
        Ok(parts) => parts,
        Err(fault) => return Err(fault),
    };
    let begun = match join_registers(alloc, &registers) {
        Ok(begun) => begun,
        Err(fault) => return Err(fault),
    };
    let joined = match join_pieces(alloc, begun, &pieces) {
        Ok(joined) => joined,
        Err(fault) => return Err(fault),
    };
    let Ok(read) = first_kept(sources) else {
        return Err(CliFault::Memory);
    };
    match publish_register(alloc, &joined, read, place) {
        Ok(()) => {
            // The program ends after a merge. Freeing each definition would take a twelfth of the time.
            forget(joined);
            forget(registers);
            forget(pieces);
            Ok(())
        }
        Err(fault) => Err(fault),
    }
}
