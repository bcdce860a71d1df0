//! The order of a log: by entry, and for each entry its Enter, then its supersessions, then its retirement.

ghost use Rattle.std.specs.Prelude.{◌≡◌};
ghost use Rattle.reg_query.specs.Log.{rank, subject_of, subject, log_cmp};

use reg_op::{Op, OpBody, OpId};
use std::cmp::Ordering;

/// The entry that an operation is about.
pub fn subject(op: &Op) -> OpId
    ensures { result ≡ subject op.now }
{
    subject_of(op.id(), op.body())
}

fn subject_of(id: OpId, body: &OpBody) -> OpId
    ensures { result ≡ subject_of id body.now }
{
    match body {
        OpBody::Enter(_) => id,
        OpBody::Supersede { old, newer: _ } => *old,
        OpBody::Retire { entry } => *entry,
    }
}

fn rank(body: &OpBody) -> u8
    ensures { result ≡ rank body.now }
{
    match body {
        OpBody::Enter(_) => 0,
        OpBody::Supersede { old: _, newer: _ } => 1,
        OpBody::Retire { entry: _ } => 2,
    }
}

/// Compares the entries of two operations, then their effects, then their ids.
pub fn order(left: &Op, right: &Op) -> Ordering
    ensures { result ≡ log_cmp left.now right.now }
{
    let entries = subject(left).cmp(&subject(right));
    let effects = rank(left.body()).cmp(&rank(right.body()));
    let ids = left.id().cmp(&right.id());
    entries.then(effects.then(ids))
}
