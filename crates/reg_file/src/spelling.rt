//! The bytes of a register's file.

ghost use Rattle.std.specs.Prelude.{◌≡◌, ◌≤◌, ◌<◌, ◌+◌, ◌^◌, ◌++◌, None, length, vec_len, vec_capacity, OnOk, OnErr};
ghost use Rattle.std.specs.List.{prefix_len};
ghost use Rattle.std.specs.Ordering.{is_eq};
ghost use Rattle.reg_state.specs.Runs.{replica_cmp};
ghost use Rattle.reg_file.specs.Layout.{four, grouped, head, id_bytes, kind_byte, body_bytes, note_bytes, op_bytes, ops_bytes, ranges_bytes};
ghost use Rattle.reg_file.specs.Spelling.{is_of, spelled};

use crate::heads::FIRST_VERSION;
use reg_op::{Note, Op, OpBody, OpId};
use reg_state::Run;
use std::alloc::AllocError;
use uuid::Uuid;

pub fn put_number(out: &mut Vec<u8>, number: u32) -> Result<(), AllocError>
    ensures ok { OnOk result (out.new.items ≡ out.old.items ++ four number) }
    ensures capacity { vec_capacity out.old ≤ vec_capacity out.new }
    ensures full { OnErr result (vec_capacity out.old < vec_len out.old + length (four number)) }
{
    out.extend_from_slice(&number.to_be_bytes())
}

fn put_id(out: &mut Vec<u8>, id: &OpId) -> Result<(), AllocError>
    ensures ok { OnOk result (out.new.items ≡ out.old.items ++ id_bytes id.now) }
    ensures capacity { vec_capacity out.old ≤ vec_capacity out.new }
    ensures full { OnErr result (vec_capacity out.old < vec_len out.old + length (id_bytes id.now)) }
{
    out.extend_from_slice(id.replica().as_bytes())?;
    put_number(out, id.count())
}

fn put_body(out: &mut Vec<u8>, body: &OpBody) -> Result<(), AllocError>
    ensures ok { OnOk result (out.new.items ≡ out.old.items ++ body_bytes body.now) }
    ensures capacity { vec_capacity out.old ≤ vec_capacity out.new }
    ensures full { OnErr result (vec_capacity out.old < vec_len out.old + length (body_bytes body.now)) }
{
    match body {
        OpBody::Enter(definition) => {
            let text = definition.as_bytes();
            put_number(out, text.len() as u32)?;
            out.extend_from_slice(text)
        }
        OpBody::Supersede { old, newer } => {
            put_id(out, old)?;
            put_id(out, newer)
        }
        OpBody::Retire { entry } => put_id(out, entry),
    }
}

fn kind_of(body: &OpBody) -> u8
    ensures { result ≡ kind_byte body.now }
{
    match body {
        OpBody::Enter(_) => 1,
        OpBody::Supersede { old: _, newer: _ } => 2,
        OpBody::Retire { entry: _ } => 3,
    }
}

// A note after its length, which version 1 does not have.
fn put_note(out: &mut Vec<u8>, version: u8, note: &Note) -> Result<(), AllocError>
    ensures ok { OnOk result (out.new.items ≡ out.old.items ++ note_bytes version note.now) }
    ensures capacity { vec_capacity out.old ≤ vec_capacity out.new }
    ensures full { OnErr result (vec_capacity out.old < vec_len out.old + length (note_bytes version note.now)) }
{
    if version == FIRST_VERSION {
        return Ok(());
    }
    let bytes = note.as_bytes();
    out.push(bytes.len() as u8)?;
    out.extend_from_slice(bytes)
}

pub fn put_op(out: &mut Vec<u8>, version: u8, op: &Op) -> Result<(), AllocError>
    ensures ok { OnOk result (out.new.items ≡ out.old.items ++ op_bytes version op.now) }
    ensures capacity { vec_capacity out.old ≤ vec_capacity out.new }
    ensures full { OnErr result (vec_capacity out.old < vec_len out.old + length (op_bytes version op.now)) }
{
    let id = op.id();
    let body = op.body();
    put_id(out, &id)?;
    out.push(kind_of(body))?;
    put_note(out, version, op.note())?;
    put_body(out, body)
}

pub fn put_ops(out: &mut Vec<u8>, version: u8, ops: &[Op]) -> Result<(), AllocError>
    requires { length ops.now < 2 ^ 32 }
    ensures { OnOk result (out.new.items ≡ out.old.items ++ ops_bytes version ops.now) }
{
    put_number(out, ops.len() as u32)?;
    for op in ops {
        put_op(out, version, op)?;
    }
    Ok(())
}

// Whether the run is of the last replica.
fn is_of(last: Option<Uuid>, run: &Run) -> bool
    ensures { result ≡ is_of last run.now }
{
    match last {
        None => false,
        Some(last) => last.cmp(&run.replica).is_eq(),
    }
}

fn is_of_replica(replica: &Uuid, run: &Run) -> bool
    ensures { result ≡ is_eq (replica_cmp replica.now run.now.replica) }
{
    replica.cmp(&run.replica).is_eq()
}

// The number of leading runs of a replica.
fn leading(replica: &Uuid, runs: &[Run]) -> usize
    ensures { result ≡ prefix_len (λ r. is_eq (replica_cmp replica.now r.replica)) runs.now }
{
    runs.iter()
        .take_while(|run| is_of_replica(replica, run))
        .count()
}

/// The number of replicas of the runs.
pub fn replicas_of(runs: &[Run]) -> usize
    ensures count { result ≡ length (grouped runs.now) }
    ensures bound { result ≤ length runs.now }
{
    let mut count = 0;
    let mut last = None;
    for run in runs {
        if !is_of(last, run) {
            count += 1;
        }
        last = Some(run.replica);
    }
    count
}

fn put_heading(out: &mut Vec<u8>, replica: &Uuid, runs: &[Run]) -> Result<(), AllocError>
    requires { length runs.now < 2 ^ 32 }
    ensures { OnOk result (out.new.items ≡ out.old.items ++ (replica.now ++ four (prefix_len (λ r. is_eq (replica_cmp replica.now r.replica)) runs.now))) }
{
    let count = leading(replica, runs);
    out.extend_from_slice(replica.as_bytes())?;
    put_number(out, count as u32)
}

// Each run, with the replica before its first run.
fn put_runs(out: &mut Vec<u8>, runs: &[Run]) -> Result<(), AllocError>
    requires { length runs.now < 2 ^ 32 }
    ensures { OnOk result (out.new.items ≡ out.old.items ++ spelled None runs.now) }
{
    let mut last = None;
    let mut rest = runs;
    while let Some((run, others)) = rest.split_first() {
        if !is_of(last, run) {
            put_heading(out, &run.replica, rest)?;
        }
        put_number(out, run.low)?;
        put_number(out, run.high)?;
        last = Some(run.replica);
        rest = others;
    }
    Ok(())
}

pub fn put_ranges(out: &mut Vec<u8>, runs: &[Run]) -> Result<(), AllocError>
    requires { length runs.now < 2 ^ 32 }
    ensures { OnOk result (out.new.items ≡ out.old.items ++ ranges_bytes (grouped runs.now)) }
{
    let replicas = replicas_of(runs);
    put_number(out, replicas as u32)?;
    put_runs(out, runs)?;
    Ok(())
}

pub fn put_head(out: &mut Vec<u8>, version: u8, kind: u8) -> Result<(), AllocError>
    ensures { OnOk result (out.new.items ≡ out.old.items ++ head version kind) }
{
    out.extend_from_slice(&[b'C', b'R', b'S', b'R', version, kind])
}
