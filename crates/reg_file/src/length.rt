//! The lengths of files.

ghost use Rattle.std.specs.Prelude.{◌≡◌, ◌≤◌, ◌<◌, ◌+◌, length, IfSome, IfNone};
ghost use Rattle.std.specs.List.{flat_map};
ghost use Rattle.reg_state.specs.Runs.{AreRuns, EndInIds};
ghost use Rattle.reg_file.specs.Layout.{body_bytes, grouped, note_bytes, op_bytes, piece_file, ranges_bytes, register_file, seen_file};

use crate::heads::{FIRST_VERSION, MAX_FILE, VERSION};
use crate::spelling::replicas_of;
use reg_op::{Note, Op, OpBody};
use reg_state::Run;

/// The bytes of a head.
const HEAD: usize = 6;

/// The bytes of a count.
const COUNT: usize = 4;

// The length of a note in a version.
fn size_of_note(version: u8, note: &Note) -> usize
    ensures value { result ≡ length (note_bytes version note.now) }
    ensures bound { result ≤ 201 }
{
    if version == FIRST_VERSION {
        return 0;
    }
    1 + note.as_bytes().len()
}

fn size_of_body(body: &OpBody) -> usize
    ensures value { result ≡ length (body_bytes body.now) }
    ensures bound { result ≤ 65540 }
{
    match body {
        OpBody::Enter(definition) => COUNT + definition.as_bytes().len(),
        OpBody::Supersede { old, newer } => {
            let _ids = (old.count(), newer.count());
            40
        }
        OpBody::Retire { entry } => {
            let _id = entry.count();
            20
        }
    }
}

/// The length of an operation in a version.
pub fn size_of(version: u8, op: &Op) -> usize
    ensures value { result ≡ length (op_bytes version op.now) }
    ensures bound { result ≤ 65762 }
{
    let _id = op.id();
    21 + size_of_note(version, op.note()) + size_of_body(op.body())
}

// This length plus that of the operations, if the sum is within the limit.
fn add_sizes(size: usize, version: u8, ops: &[Op]) -> Option<usize>
    requires { size ≤ MAX_FILE }
    ensures some { IfSome result (λ n. (n ≡ size + length (flat_map (op_bytes version) ops.now)) × (n ≤ MAX_FILE)) }
    ensures none { IfNone result (MAX_FILE < size + length (flat_map (op_bytes version) ops.now)) }
{
    let mut total = size;
    let mut rest = ops;
    while let Some((op, others)) = rest.split_first() {
        total += size_of(version, op);
        if total > MAX_FILE {
            return None;
        }
        rest = others;
    }
    Some(total)
}

// This length plus that of the ranges, if the sum is within the limit.
fn add_ranges(size: usize, runs: &[Run]) -> Option<usize>
    requires size { size ≤ MAX_FILE }
    requires runs { AreRuns runs.now }
    requires ids { EndInIds runs.now }
    ensures some { IfSome result (λ n. (n ≡ size + length (ranges_bytes (grouped runs.now))) × (n ≤ MAX_FILE)) }
    ensures none { IfNone result (MAX_FILE < size + length (ranges_bytes (grouped runs.now))) }
{
    if runs.len() > MAX_FILE {
        return None;
    }
    let total = size + COUNT + 20 * replicas_of(runs) + 8 * runs.len();
    if total > MAX_FILE {
        return None;
    }
    Some(total)
}

/// The length of a register's file, if it is within the limit.
pub fn length_of_register(version: u8, ops: &[Op], runs: &[Run]) -> Option<usize>
    requires runs { AreRuns runs.now }
    requires ids { EndInIds runs.now }
    ensures some { IfSome result (λ n. (n ≡ length (register_file version ops.now runs.now)) × (n ≤ MAX_FILE)) }
    ensures none { IfNone result (MAX_FILE < length (register_file version ops.now runs.now)) }
{
    let Some(size) = add_ranges(HEAD + COUNT, runs) else {
        return None;
    };
    match add_sizes(size, version, ops) {
        Some(total) => Some(total),
        None => None,
    }
}

/// The length of a summary's file, if it is within the limit.
pub fn length_of_seen(runs: &[Run]) -> Option<usize>
    requires runs { AreRuns runs.now }
    requires ids { EndInIds runs.now }
    ensures some { IfSome result (λ n. (n ≡ length (seen_file 2 runs.now)) × (n ≤ MAX_FILE)) }
    ensures none { IfNone result (MAX_FILE < length (seen_file 2 runs.now)) }
{
    match add_ranges(HEAD, runs) {
        Some(total) => Some(total),
        None => None,
    }
}

/// The length of a piece's file, if it is within the limit.
pub fn length_of_piece(basis: &[Run], ops: &[Op], runs: &[Run]) -> Option<usize>
    requires basis { AreRuns basis.now × EndInIds basis.now }
    requires runs { AreRuns runs.now × EndInIds runs.now }
    ensures some { IfSome result (λ n. (n ≡ length (piece_file 2 basis.now ops.now runs.now)) × (n ≤ MAX_FILE)) }
    ensures none { IfNone result (MAX_FILE < length (piece_file 2 basis.now ops.now runs.now)) }
{
    let Some(front) = add_ranges(HEAD + COUNT, basis) else {
        return None;
    };
    let Some(size) = add_ranges(front, runs) else {
        return None;
    };
    match add_sizes(size, VERSION, ops) {
        Some(total) => Some(total),
        None => None,
    }
}
