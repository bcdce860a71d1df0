//! The command `diff`.

ghost use Rattle.std.specs.Prelude.{◌≡◌, ◌↔◌, ◌∷◌, [], map, IsTrue, Ok, IfOk, IfErr};
ghost use Rattle.reg_op.specs.Joining.{all_joined};
ghost use Rattle.reg_op.specs.Contents.{nothing, joined};
ghost use Rattle.reg_report.specs.Reports.{Reports};
ghost use Rattle.reg_query.specs.DiffLines.{IsDiff, Differ};
ghost use Rattle.reg_engine.specs.Inputs.{AreUnread, GivePartsAfter};
ghost use Rattle.reg_commands.specs.Merge.{begun, with_pieces, IsUnjoined};
ghost use Rattle.reg_desk.specs.Diff.{joined_ones, IsCompared, IsUncompared, IsUntold};

use crate::comparison::Comparison;
use byte_io::{Sink, Source, write_all};
use reg_commands::{join_pieces, join_registers};
use reg_engine::{CliFault, OutFault, Parts, Store, parts_of, read_parts_after};
use reg_query::compare;
use reg_state::{Piece, Register};
use std::alloc::Global;

/// Loads the older register, and then reads a register or a piece from each source. Writes the rows that only one of the
/// older register and the join of the others has, and returns both and whether there are any. If `joins`, the older register is
/// part of the join.
pub fn run_diff<T: Store, S: Source, K: Sink>(
    alloc: Global,
    store: &mut T,
    others: &mut [S],
    joins: bool,
    sink: &mut K,
) -> Result<Comparison, CliFault>
    ensures same { T.same store.old store.new }
    ensures compared { IfOk result (IsCompared (T.around store.old store.new) joins
        (map S.state others.old) (map S.state others.new) (K.state sink.old) (K.state sink.new)) }
    ensures fault { IfErr result (IsUncompared (T.around store.old store.new) joins (T.next store.old)
        (map S.state others.old) (map S.state others.new) (K.state sink.old) (K.state sink.new)) }
{
    let next = store.next();
    let old = match store.load(alloc) {
        Ok(old) => old,
        Err(fault) => return Err(fault),
    };
    let Parts { registers, pieces } = match read_others(alloc, old, next, others) {
        Ok(parts) => parts,
        Err(fault) => return Err(fault),
    };
    let Some((first, _later)) = registers.split_first() else {
        unreachable!();
    };
    let after = match join_some(alloc, &registers, &pieces, joins) {
        Ok(after) => after,
        Err(fault) => return Err(fault),
    };
    let differ = match write_diff(alloc, first, &after, sink) {
        Ok(differ) => differ,
        Err(fault) => return Err(fault),
    };
    let Some(before) = registers.into_iter().next() else {
        unreachable!();
    };
    Ok(Comparison {
        before,
        after,
        differ,
    })
}

// Reads the files, with a known register, whose definitions are not read again.
fn read_others<S: Source>(
    alloc: Global,
    first: Register,
    next: usize,
    others: &mut [S],
) -> Result<Parts, CliFault>
    ensures found { IfOk result (λ parts. GivePartsAfter (first ∷ []) []
        (map S.state others.old) (map S.state others.new) parts.registers.items parts.pieces.items) }
    ensures fault { IfErr result (AreUnread next (map S.state others.old) (map S.state others.new)) }
{
    let Ok(known) = parts_of(alloc, first) else {
        return Err(CliFault::Memory);
    };
    match read_parts_after(alloc, known, next, others) {
        Ok(parts) => Ok(parts),
        Err(fault) => Err(fault),
    }
}

// The join of all registers, of the first one only if asked, and then of all pieces.
fn join_some(
    alloc: Global,
    registers: &[Register],
    pieces: &[Piece],
    joins: bool,
) -> Result<Register, CliFault>
    ensures ok { IfOk result (λ r. with_pieces (begun (all_joined joined (Ok nothing) (joined_ones joins registers.now))) pieces.now ≡ Ok r) }
    ensures err { IfErr result (IsUnjoined (with_pieces (begun (all_joined joined (Ok nothing) (joined_ones joins registers.now))) pieces.now)) }
{
    if joins {
        return join_parts(alloc, registers, pieces);
    }
    match registers.split_first() {
        Some((_first, later)) => join_parts(alloc, later, pieces),
        None => join_parts(alloc, registers, pieces),
    }
}

// The join of all registers, and then of all pieces.
fn join_parts(alloc: Global, registers: &[Register], pieces: &[Piece]) -> Result<Register, CliFault>
    ensures ok { IfOk result (λ r. with_pieces (begun (all_joined joined (Ok nothing) registers.now)) pieces.now ≡ Ok r) }
    ensures err { IfErr result (IsUnjoined (with_pieces (begun (all_joined joined (Ok nothing) registers.now)) pieces.now)) }
{
    let begun = match join_registers(alloc, registers) {
        Ok(begun) => begun,
        Err(fault) => return Err(fault),
    };
    match join_pieces(alloc, begun, pieces) {
        Ok(joined) => Ok(joined),
        Err(fault) => Err(fault),
    }
}

// Writes the rows that only one of the two has, and returns whether there are any.
fn write_diff<K: Sink>(
    alloc: Global,
    old: &Register,
    new: &Register,
    sink: &mut K,
) -> Result<bool, CliFault>
    ensures told { IfOk result (λ differ. Reports (IsDiff old.now new.now) (K.state sink.old) (K.state sink.new) × (IsTrue differ ↔ Differ old.now new.now)) }
    ensures fault { IfErr result (IsUntold (IsDiff old.now new.now) (K.state sink.old) (K.state sink.new)) }
{
    let Ok(made) = compare(alloc, old, new) else {
        return Err(CliFault::Memory);
    };
    match write_all(sink, &made.text) {
        Ok(()) => Ok(made.differ),
        Err(fault) => Err(CliFault::Out(OutFault::WriteFailed(fault.written))),
    }
}
