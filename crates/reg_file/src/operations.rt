//! Reads operations one after the other.

ghost use Rattle.std.specs.Prelude.{◌≡◌, ◌≤◌, length, IfOk, IfErr, IfSome};
ghost use Rattle.reg_file.specs.Fields.{body_at};
ghost use Rattle.reg_file.specs.Readers.{StopsIn};
ghost use Rattle.reg_file.specs.Reading.{operation, operations, left_in, places_of};
ghost use Rattle.reg_file.specs.Steps.{StopsInText, StopsAs};

use crate::fault::{FileFault, Stop};
use crate::fields::{heading_of, id_of, pair_of, refused, text_of};
use crate::op_offset::OpOffset;
use bytes::Bytes;
use reg_op::{Definition, DefinitionFault, Op, OpBody, OpId, SameEntry};
use reg_state::{Register, Seen};
use std::alloc::Global;

/// The known definition, if it has this text.
fn known_as(alloc: Global, known: Option<&Definition>, text: &[u8]) -> Option<Definition>
    ensures { IfSome result (λ d. d ≡ text.now) }
{
    let Some(definition) = known else {
        return None;
    };
    if definition.as_bytes() != text {
        return None;
    }
    match definition.try_clone(alloc) {
        Ok(shared) => Some(shared),
        Err(_) => None,
    }
}

// The definition with this text, which stands in the block with `behind` bytes after it if the block is not empty.
fn definition_of(
    alloc: Global,
    block: &Bytes,
    known: Option<&Definition>,
    text: &[u8],
    left: usize,
    behind: usize,
) -> Result<Definition, Stop>
    ensures ok { IfOk result (λ d. d ≡ text.now) }
    ensures err { IfErr result (StopsInText text.now left) }
{
    if let Some(definition) = known_as(alloc, known, text) {
        return Ok(definition);
    }
    match Definition::from_block(alloc, block, text, behind) {
        Ok(definition) => Ok(definition),
        Err(DefinitionFault::Memory) => Err(Stop::Memory),
        Err(DefinitionFault::NotCanonical) => Err(refused(FileFault::NotCanonical, left)),
        Err(fault) => Err(refused(FileFault::Definition(fault), left)),
    }
}

fn enter_of<'a>(
    alloc: Global,
    block: &Bytes,
    known: Option<&Definition>,
    bytes: &'a [u8],
) -> Result<(OpBody, &'a [u8]), Stop>
    ensures ok { IfOk result (λ x. body_at 1 bytes.now ≡ Ok (x.0, x.1.now)) }
    ensures err { IfErr result (StopsAs (length bytes.now) (body_at 1 bytes.now)) }
{
    let (text, rest) = match text_of(bytes) {
        Ok(read) => read,
        Err(stop) => return Err(stop),
    };
    match definition_of(alloc, block, known, text, bytes.len(), rest.len()) {
        Ok(definition) => Ok((OpBody::Enter(definition), rest)),
        Err(stop) => Err(stop),
    }
}

fn supersede_of(bytes: &[u8]) -> Result<(OpBody, &[u8]), Stop>
    ensures ok { IfOk result (λ x. body_at 2 bytes.now ≡ Ok (x.0, x.1.now)) }
    ensures err { IfErr result (StopsAs (length bytes.now) (body_at 2 bytes.now)) }
{
    let (pair, rest) = match pair_of(bytes) {
        Ok(read) => read,
        Err(stop) => return Err(stop),
    };
    let (old, newer) = pair;
    Ok((OpBody::Supersede { old, newer }, rest))
}

fn retire_of(bytes: &[u8]) -> Result<(OpBody, &[u8]), Stop>
    ensures ok { IfOk result (λ x. body_at 3 bytes.now ≡ Ok (x.0, x.1.now)) }
    ensures err { IfErr result (StopsAs (length bytes.now) (body_at 3 bytes.now)) }
{
    let (entry, rest) = match id_of(bytes) {
        Ok(read) => read,
        Err(stop) => return Err(stop),
    };
    Ok((OpBody::Retire { entry }, rest))
}

fn body_of<'a>(
    alloc: Global,
    block: &Bytes,
    known: Option<&Definition>,
    kind: u8,
    bytes: &'a [u8],
) -> Result<(OpBody, &'a [u8]), Stop>
    requires { (1 ≤ kind) × (kind ≤ 3) }
    ensures ok { IfOk result (λ x. body_at kind bytes.now ≡ Ok (x.0, x.1.now)) }
    ensures err { IfErr result (StopsAs (length bytes.now) (body_at kind bytes.now)) }
{
    if kind == 1 {
        return enter_of(alloc, block, known, bytes);
    }
    if kind == 2 {
        return supersede_of(bytes);
    }
    retire_of(bytes)
}

/// The definition that the id entered, in the first register that has it.
fn entered_in(known: &[Register], id: OpId) -> Option<&Definition> {
    known.iter().find_map(|register| register.definition(id))
}

fn op_of<'a>(
    alloc: Global,
    block: &Bytes,
    known: &[Register],
    version: u8,
    last: Option<OpId>,
    seen: &Seen,
    bytes: &'a [u8],
) -> Result<(Op, &'a [u8]), Stop>
    ensures ok { IfOk result (λ x. (operation version seen.now last).Reads bytes.now x.0 x.1.now) }
    ensures err { IfErr result (StopsIn (operation version seen.now last) bytes.now) }
{
    let (heading, rest) = match heading_of(alloc, version, last, seen, bytes) {
        Ok(read) => read,
        Err(stop) => return Err(stop),
    };
    let ((id, kind), note) = heading;
    let (body, rest) = match body_of(alloc, block, entered_in(known, id), kind, rest) {
        Ok(read) => read,
        Err(stop) => return Err(stop),
    };
    match Op::new(id, body, note) {
        Ok(op) => {
            let _id = op.id();
            Ok((op, rest))
        }
        Err(SameEntry) => unreachable!(),
    }
}

/// This many operations in ascending order, and their places. Texts are parts of the block if it ends with these bytes.
pub fn ops_of<'a>(
    alloc: Global,
    block: &Bytes,
    known: &[Register],
    version: u8,
    seen: &Seen,
    count: u32,
    bytes: &'a [u8],
) -> Result<(Vec<Op>, Vec<OpOffset>, &'a [u8]), Stop>
    ensures ok { IfOk result (λ x. (operations version seen.now count).Reads bytes.now x.0.items x.2.now × (x.1.items ≡ places_of version x.0.items x.2.now)) }
    ensures err { IfErr result (StopsIn (operations version seen.now count) bytes.now) }
{
    let mut ops = Vec::new(alloc);
    let mut places = Vec::new(alloc);
    let mut last = None;
    let mut rest = bytes;
    for _ in 0..count {
        let (op, after) = match op_of(alloc, block, known, version, last, seen, rest) {
            Ok(read) => read,
            Err(stop) => return Err(stop),
        };
        let id = op.id();
        places.push(OpOffset {
            id,
            left: rest.len(),
        })?;
        ops.push(op)?;
        last = Some(id);
        rest = after;
    }
    Ok((ops, places, rest))
}

/// The place of the first operation of an id.
pub fn left_of(places: &[OpOffset], id: OpId) -> usize
    ensures { result ≡ left_in places.now id }
{
    let mut rest = places;
    while let Some((place, others)) = rest.split_first() {
        if place.id.is_same(&id) {
            return place.left;
        }
        rest = others;
    }
    0
}
