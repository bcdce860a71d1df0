//! The part of a file after the head or the basis of a piece: seen ids and operations.

ghost use Rattle.std.specs.Prelude.{◌≡◌, true, IfOk, IfErr};
ghost use Rattle.reg_op.specs.Set as set;
ghost use Rattle.reg_op.specs.Operations.{Op as Operation};
ghost use Rattle.reg_op.specs.Lists.{has, ById};
ghost use Rattle.reg_file.specs.Readers.{StopsIn};
ghost use Rattle.reg_file.specs.Reading.{seen_and_kept, seen_and_ops};
ghost use Rattle.reg_file.specs.Steps.{EndsWell, IsStopOf, ReadsKept, ReadsOps, StopsAtEnd};

use crate::fault::{FileFault, Stop};
use crate::fields::{number_of, refused};
use crate::op_offset::OpOffset;
use crate::operations::{left_of, ops_of};
use crate::ranges::seen_of;
use bytes::Bytes;
use reg_op::Op;
use reg_state::{ContentFault, Register, Seen};
use std::alloc::Global;

/// The seen ids, none of them in the basis, and the operations with their places.
pub fn seen_and_ops_of<'a>(
    alloc: Global,
    block: &Bytes,
    known: &[Register],
    version: u8,
    basis: &Seen,
    bytes: &'a [u8],
) -> Result<(Vec<Op>, Vec<OpOffset>, Seen, &'a [u8]), Stop>
    ensures ok { IfOk result (λ x. ReadsOps version basis.now bytes.now x.0.items x.1.items x.2 x.3.now) }
    ensures err { IfErr result (StopsIn (seen_and_ops version basis.now) bytes.now) }
{
    let (seen, rest) = match seen_of(alloc, basis, bytes) {
        Ok(read) => read,
        Err(stop) => return Err(stop),
    };
    let (count, rest) = match number_of(rest) {
        Ok(read) => read,
        Err(stop) => return Err(stop),
    };
    let (ops, places, rest) = match ops_of(alloc, block, known, version, &seen, count, rest) {
        Ok(read) => read,
        Err(stop) => return Err(stop),
    };
    Ok((ops, places, seen, rest))
}

/// The fault of operations that are not a content, at the place of the one that it names.
pub fn stop_of(fault: ContentFault, places: &[OpOffset]) -> Stop
    ensures { IsStopOf fault places.now result }
{
    match fault {
        ContentFault::NotKept(id) => refused(FileFault::NotKept, left_of(places, id)),
        ContentFault::Memory => Stop::Memory,
    }
}

// After all operations: none is redundant, and nothing follows.
fn register_of(
    alloc: Global,
    ops: Vec<Op>,
    seen: Seen,
    places: &[OpOffset],
    rest: &[u8],
) -> Result<Register, Stop>
    requires by_id { ById ops.items }
    requires are_seen { (o : Operation) → has ops.items o ≡ true → set.contains seen o.id ≡ true }
    ensures ok { IfOk result (λ r. EndsWell ops.items seen rest.now r) }
    ensures err { IfErr result (StopsAtEnd ops.items places.now rest.now) }
{
    let register = match Register::from_content(alloc, ops, seen) {
        Ok(register) => register,
        Err(fault) => return Err(stop_of(fault, places)),
    };
    if !rest.is_empty() {
        return Err(refused(FileFault::Trailing, rest.len()));
    }
    let _kept = register.ops();
    Ok(register)
}

/// The register of the seen ids, none of them in the basis, and of the operations. Nothing follows.
pub fn kept_of(
    alloc: Global,
    block: &Bytes,
    known: &[Register],
    version: u8,
    basis: &Seen,
    bytes: &[u8],
) -> Result<Register, Stop>
    ensures ok { IfOk result (λ r. ReadsKept version basis.now bytes.now r) }
    ensures err { IfErr result (StopsIn (seen_and_kept version basis.now) bytes.now) }
{
    let (ops, places, seen, rest) = match seen_and_ops_of(
        alloc, block, known, version, basis, bytes,
    ) {
        Ok(read) => read,
        Err(stop) => return Err(stop),
    };
    match register_of(alloc, ops, seen, &places, rest) {
        Ok(register) => Ok(register),
        Err(stop) => Err(stop),
    }
}
