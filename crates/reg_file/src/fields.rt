//! Fields, read from the front of a slice. A fault has the number of bytes from its place to the end.

ghost use Rattle.std.specs.Prelude.{◌≡◌, length};
ghost use Rattle.std.specs.Int.{w32};
ghost use Rattle.reg_file.specs.Fields.{Gives, byte_at, cut_at, count_at, group_at, head_at, heading_at, id_at, is_above, is_after, is_unfit, kind_at, note_at, noted_at, number_at, op_kind_at, own_at, pair_at, replica_at, span_at, text_at, version_at};

use crate::fault::{FileFault, Refused, Stop};
use crate::heads::FIRST_VERSION;
use crate::span::Span;
use reg_op::{Definition, DefinitionFault, Note, NoteFault, OpId};
use reg_state::{Run, Seen};
use std::alloc::Global;
use uuid::Uuid;

pub fn refused(fault: FileFault, left: usize) -> Stop
    ensures { result ≡ Stop.Refused (record { fault = fault; left = left }) }
{
    Stop::Refused(Refused { fault, left })
}

fn byte_of(bytes: &[u8]) -> Result<(u8, &[u8]), Stop>
    ensures { Gives (λ x. (x.0, x.1.now)) result (byte_at bytes.now) }
{
    match bytes {
        [] => Err(refused(FileFault::Truncated, 0)),
        [first, rest @ ..] => Ok((*first, rest)),
    }
}

fn cut_of(len: usize, bytes: &[u8]) -> Result<(&[u8], &[u8]), Stop>
    ensures { Gives (λ x. (x.0.now, x.1.now)) result (cut_at len bytes.now) }
{
    if bytes.len() < len {
        return Err(refused(FileFault::Truncated, 0));
    }
    Ok(bytes.split_at(len))
}

pub fn number_of(bytes: &[u8]) -> Result<(u32, &[u8]), Stop>
    ensures { Gives (λ x. (x.0, x.1.now)) result (number_at w32 bytes.now) }
{
    if bytes.len() < 4 {
        return Err(refused(FileFault::Truncated, 0));
    }
    let (front, rest) = bytes.split_at(4);
    let number = u32::from_be_bytes([front[0], front[1], front[2], front[3]]);
    Ok((number, rest))
}

fn kind_of(kind: u8, bytes: &[u8]) -> Result<((), &[u8]), Stop>
    ensures { Gives (λ x. (x.0, x.1.now)) result (kind_at kind bytes.now) }
{
    let (found, rest) = byte_of(bytes)?;
    if found != kind {
        return Err(refused(FileFault::Kind, bytes.len()));
    }
    Ok(((), rest))
}

fn version_of(version: u8, kind: u8, bytes: &[u8]) -> Result<((), &[u8]), Stop>
    ensures { Gives (λ x. (x.0, x.1.now)) result (version_at version kind bytes.now) }
{
    let (found, rest) = byte_of(bytes)?;
    if found != version {
        return Err(refused(FileFault::Version, bytes.len()));
    }
    kind_of(kind, rest)
}

/// The magic word, the version and the kind.
#[tactic(auto, unfolding(crate::specs::Fields::head_at))]
pub fn head_of(version: u8, kind: u8, bytes: &[u8]) -> Result<((), &[u8]), Stop>
    ensures { Gives (λ x. (x.0, x.1.now)) result (head_at version kind bytes.now) }
{
    let (magic, rest) = number_of(bytes)?;
    if magic != 0x4352_5352 {
        return Err(refused(FileFault::Magic, bytes.len()));
    }
    version_of(version, kind, rest)
}

fn is_unfit(basis: &Seen, replica: Uuid, floor: u64, span: Span) -> bool
    ensures { result ≡ is_unfit basis.now replica floor span }
{
    let Span { low, high } = span;
    u64::from(low) < floor || high < low || basis.meets(Run { replica, low, high })
}

/// A range of a replica that begins at or above the floor, and does not overlap the basis.
#[tactic(auto, unfolding(crate::specs::Fields::span_at))]
pub fn span_of<'a>(
    basis: &Seen,
    replica: Uuid,
    floor: u64,
    bytes: &'a [u8],
) -> Result<(Span, &'a [u8]), Stop>
    ensures { Gives (λ x. (x.0, x.1.now)) result (span_at basis.now replica floor bytes.now) }
{
    let (low, rest) = number_of(bytes)?;
    let (high, rest) = number_of(rest)?;
    let span = Span { low, high };
    if is_unfit(basis, replica, floor, span) {
        return Err(refused(FileFault::Ranges, bytes.len()));
    }
    Ok((span, rest))
}

fn uuid_of(bytes: &[u8]) -> Result<(Uuid, &[u8]), Stop>
    ensures { Gives (λ x. (x.0, x.1.now)) result (cut_at 16 bytes.now) }
{
    let (front, rest) = cut_of(16, bytes)?;
    let Ok(uuid) = Uuid::from_slice(front) else {
        unreachable!();
    };
    Ok((uuid, rest))
}

/// An id, whose count is not 0.
#[tactic(auto, unfolding(crate::specs::Fields::id_at))]
pub fn id_of(bytes: &[u8]) -> Result<(OpId, &[u8]), Stop>
    ensures { Gives (λ x. (x.0, x.1.now)) result (id_at bytes.now) }
{
    let (replica, rest) = match uuid_of(bytes) {
        Ok(read) => read,
        Err(stop) => return Err(stop),
    };
    let (count, rest) = number_of(rest)?;
    match OpId::new(replica, count) {
        None => Err(refused(FileFault::OpIdBad, bytes.len())),
        Some(id) => Ok((id, rest)),
    }
}

#[tactic(auto, unfolding(crate::specs::Fields::own_at))]
fn own_of<'a>(last: Option<OpId>, seen: &Seen, bytes: &'a [u8]) -> Result<(OpId, &'a [u8]), Stop>
    ensures { Gives (λ x. (x.0, x.1.now)) result (own_at last seen.now bytes.now) }
{
    let (id, rest) = match id_of(bytes) {
        Ok(read) => read,
        Err(stop) => return Err(stop),
    };
    if !is_after(last, id) {
        return Err(refused(FileFault::OpOrder, bytes.len()));
    }
    if !seen.contains(id) {
        return Err(refused(FileFault::NotSeen, bytes.len()));
    }
    Ok((id, rest))
}

fn is_after(last: Option<OpId>, id: OpId) -> bool
    ensures { result ≡ is_after last id }
{
    match last {
        None => true,
        Some(last) => last.is_before(&id),
    }
}

// The kind of an operation: a byte from 1 to 3.
#[tactic(auto, unfolding(crate::specs::Fields::op_kind_at))]
fn op_kind_of(bytes: &[u8]) -> Result<(u8, &[u8]), Stop>
    ensures { Gives (λ x. (x.0, x.1.now)) result (op_kind_at bytes.now) }
{
    let (kind, rest) = byte_of(bytes)?;
    if kind == 0 || kind > 3 {
        return Err(refused(FileFault::OpKind, bytes.len()));
    }
    Ok((kind, rest))
}

// The bytes of a note, after their number.
#[tactic(auto, unfolding(crate::specs::Fields::noted_at))]
fn noted_of(bytes: &[u8]) -> Result<(&[u8], &[u8]), Stop>
    ensures { Gives (λ x. (x.0.now, x.1.now)) result (noted_at bytes.now) }
{
    let (len, rest) = byte_of(bytes)?;
    let len = usize::from(len);
    if len > Note::MAX {
        return Err(refused(FileFault::NoteTooLong, bytes.len()));
    }
    cut_of(len, rest)
}

// An operation's note, which version 1 does not have.
#[tactic(auto, unfolding(crate::specs::Fields::note_at))]
fn note_of(alloc: Global, version: u8, bytes: &[u8]) -> Result<(Note, &[u8]), Stop>
    ensures { Gives (λ x. (x.0, x.1.now)) result (note_at version bytes.now) }
{
    if version == FIRST_VERSION {
        return Ok((Note::empty(), bytes));
    }
    let (noted, rest) = match noted_of(bytes) {
        Ok(read) => read,
        Err(stop) => return Err(stop),
    };
    match Note::new(alloc, noted) {
        Ok(note) => Ok((note, rest)),
        Err(NoteFault::Memory) => Err(Stop::Memory),
        Err(NoteFault::NoteNotUtf8) => Err(refused(FileFault::NoteNotUtf8, bytes.len())),
        Err(NoteFault::NoteTooLong) => unreachable!(),
    }
}

/// An operation's own id, after the last one and seen, its kind, from 1 to 3, and its note.
#[tactic(auto, unfolding(crate::specs::Fields::heading_at))]
pub fn heading_of<'a>(
    alloc: Global,
    version: u8,
    last: Option<OpId>,
    seen: &Seen,
    bytes: &'a [u8],
) -> Result<(((OpId, u8), Note), &'a [u8]), Stop>
    ensures { Gives (λ x. (x.0, x.1.now)) result (heading_at version last seen.now bytes.now) }
{
    let (id, rest) = match own_of(last, seen, bytes) {
        Ok(read) => read,
        Err(stop) => return Err(stop),
    };
    let (kind, rest) = op_kind_of(rest)?;
    let (note, rest) = match note_of(alloc, version, rest) {
        Ok(read) => read,
        Err(stop) => return Err(stop),
    };
    Ok((((id, kind), note), rest))
}

/// A definition's text, after its length.
#[tactic(auto, unfolding(crate::specs::Fields::text_at))]
pub fn text_of(bytes: &[u8]) -> Result<(&[u8], &[u8]), Stop>
    ensures { Gives (λ x. (x.0.now, x.1.now)) result (text_at bytes.now) }
{
    let (len, rest) = number_of(bytes)?;
    let len = len as usize;
    if len > Definition::MAX {
        let fault = FileFault::Definition(DefinitionFault::CanonicalTooLong);
        return Err(refused(fault, bytes.len()));
    }
    cut_of(len, rest)
}

/// The old id and the newer one of a supersession.
#[tactic(auto, unfolding(crate::specs::Fields::pair_at))]
pub fn pair_of(bytes: &[u8]) -> Result<((OpId, OpId), &[u8]), Stop>
    ensures { Gives (λ x. (x.0, x.1.now)) result (pair_at bytes.now) }
{
    let (old, rest) = match id_of(bytes) {
        Ok(read) => read,
        Err(stop) => return Err(stop),
    };
    let (newer, rest) = match id_of(rest) {
        Ok(read) => read,
        Err(stop) => return Err(stop),
    };
    if old.is_same(&newer) {
        return Err(refused(FileFault::SameEntry, bytes.len()));
    }
    Ok(((old, newer), rest))
}

fn is_above(last: Option<Uuid>, replica: &Uuid) -> bool
    ensures { result ≡ is_above last replica.now }
{
    match last {
        None => true,
        Some(last) => last.cmp(replica).is_lt(),
    }
}

fn replica_of<'a>(last: Option<Uuid>, bytes: &'a [u8]) -> Result<(Uuid, &'a [u8]), Stop>
    ensures { Gives (λ x. (x.0, x.1.now)) result (replica_at last bytes.now) }
{
    let (replica, rest) = match uuid_of(bytes) {
        Ok(read) => read,
        Err(stop) => return Err(stop),
    };
    if !is_above(last, &replica) {
        return Err(refused(FileFault::ReplicaOrder, bytes.len()));
    }
    Ok((replica, rest))
}

fn count_of(bytes: &[u8]) -> Result<(u32, &[u8]), Stop>
    ensures { Gives (λ x. (x.0, x.1.now)) result (count_at bytes.now) }
{
    let (count, rest) = number_of(bytes)?;
    if count == 0 {
        return Err(refused(FileFault::Ranges, bytes.len()));
    }
    Ok((count, rest))
}

/// A replica above the last one, and the number of its ranges.
#[tactic(auto, unfolding(crate::specs::Fields::group_at))]
pub fn group_of<'a>(last: Option<Uuid>, bytes: &'a [u8]) -> Result<((Uuid, u32), &'a [u8]), Stop>
    ensures { Gives (λ x. (x.0, x.1.now)) result (group_at last bytes.now) }
{
    let (replica, rest) = match replica_of(last, bytes) {
        Ok(read) => read,
        Err(stop) => return Err(stop),
    };
    let (count, rest) = count_of(rest)?;
    Ok(((replica, count), rest))
}
