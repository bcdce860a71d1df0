//! Ids that somebody else gave in the name of an office.

ghost use Rattle.std.specs.Prelude.{◌≡◌, ◌&&◌, ◌||◌, ◌+◌, ◌<◌, nat_lt, max, not, true, false, Bool, IfSome, IfNone};
ghost use Rattle.std.specs.List.{list_any};
ghost use Rattle.reg_op.specs.Ids.{Id, is_before, is_same};
ghost use Rattle.reg_op.specs.Operations.{named_in, replaces};
ghost use Rattle.reg_op.specs.Lists.{ById, has};
ghost use Rattle.reg_state.specs.Runs.{AreRuns, first_of, is_in_runs};
ghost use Rattle.reg_journal.specs.Journal.{is_own};
ghost use Rattle.reg_journal.specs.Standing.{is_forged, is_known, tells_forged, Leasts};

use crate::office_file::OfficeFile;
use reg_op::{Op, OpBody, OpId};
use reg_state::{Register, Run};
use uuid::Uuid;

impl OfficeFile {
    /// The least id that somebody else gave in the office's name, if the register tells of one.
    pub fn forged(&self, register: &Register) -> Option<OpId>
        ensures { Leasts (is_forged self.now register.now) result }
    {
        let seen = first_above(register.seen().runs(), self.replica(), self.last());
        let told = self.first_told(register.ops().as_slice());
        lesser(seen, told)
    }

    // The least forged id of which the operations tell.
    fn first_told(&self, ops: &[Op]) -> Option<OpId>
        ensures { Leasts (λ i. is_own self.now.replica i && list_any (tells_forged self.now i) ops.now) result }
    {
        let mut least = None;
        let mut rest = ops;
        while let Some((op, others)) = rest.split_first() {
            let told = self.told_by(op);
            least = lesser(least, told);
            rest = others;
        }
        least
    }

    // The least forged id of which an operation tells.
    fn told_by(&self, op: &Op) -> Option<OpId>
        ensures { Leasts (λ i. is_own self.now.replica i && tells_forged self.now i op.now) result }
    {
        lesser(self.named_by(op.body()), self.misused_by(op))
    }

    // The least id above the last number that an effect names.
    fn named_by(&self, body: &OpBody) -> Option<OpId>
        ensures { Leasts (λ i. is_own self.now.replica i && (nat_lt self.now.last i.count && list_any (is_same i) (named_in body.now))) result }
    {
        match body {
            OpBody::Enter(_) => None,
            OpBody::Supersede { old, newer } => {
                let first = self.above(*old);
                let second = self.above(*newer);
                lesser(first, second)
            }
            OpBody::Retire { entry } => self.above(*entry),
        }
    }

    // The id, if it is the office's, and above its last number.
    fn above(&self, id: OpId) -> Option<OpId>
        ensures { Leasts (λ i. is_own self.now.replica i && (nat_lt self.now.last i.count && is_same i id)) result }
    {
        if self.is_new(id) {
            return Some(id);
        }
        None
    }

    // The id of an operation that bears the office's name, and that the office did not make.
    fn misused_by(&self, op: &Op) -> Option<OpId>
        ensures { Leasts (λ i. is_own self.now.replica i && (is_same i op.now.id && not (is_known self.now.made.ops op.now))) result }
    {
        if self.is_misused(op) {
            return Some(op.id());
        }
        None
    }

    // Whether the operation bears the office's name, and the office did not make it.
    fn is_misused(&self, op: &Op) -> bool
        ensures { result ≡ (is_own self.now.replica op.now.id && not (is_known self.now.made.ops op.now)) }
    {
        is_of(op.id(), self.replica) && !is_known(&self.made, op)
    }
}

/// Whether the id is the office's.
pub fn is_of(id: OpId, replica: Uuid) -> bool
    ensures { result ≡ is_own replica id }
{
    id.replica().cmp(&replica).is_eq()
}

// Whether the operation is among those that the office made, or redundant beside them.
fn is_known(made: &Register, op: &Op) -> bool
    ensures { result ≡ is_known made.now.ops op.now }
{
    let ops = made.ops().as_slice();
    match op_at(ops, op.id()) {
        Some(own) => own.is_same(op),
        None => is_redundant(ops, op),
    }
}

// Whether one of some operations makes the other one redundant.
fn is_redundant(ops: &[Op], op: &Op) -> bool
    ensures { result ≡ list_any (λ p. replaces p op.now) ops.now }
{
    ops.iter().any(|own| own.replaces(op))
}

/// The operation with this id, among operations ordered by id.
pub fn op_at(ops: &[Op], id: OpId) -> Option<&Op>
    requires { ById ops.now }
    ensures found { IfSome result (λ o. (has ops.now o.now ≡ true) × (o.now.id ≡ id)) }
    ensures none { IfNone result (list_any (λ o. is_same id o.id) ops.now ≡ false) }
{
    let at = ops.partition_point(|op| is_earlier(op, id));
    if at < ops.len() {
        return having(&ops[at], id);
    }
    None
}

fn is_earlier(op: &Op, id: OpId) -> bool
    ensures { result ≡ is_before op.now.id id }
{
    op.id().is_before(&id)
}

// The operation, if it has this id.
fn having(op: &Op, id: OpId) -> Option<&Op>
    ensures found { IfSome result (λ o. (o.now ≡ op.now) × (o.now.id ≡ id)) }
    ensures none { IfNone result (is_same id op.now.id ≡ false) }
{
    if !id.is_same(&op.id()) {
        return None;
    }
    Some(op)
}

// The least id of the office above its last number in some runs.
fn first_above(runs: &[Run], replica: Uuid, last: u32) -> Option<OpId>
    requires runs { AreRuns runs.now }
    ensures { Leasts (λ i. is_own replica i && (nat_lt last i.count && is_in_runs i runs.now)) result }
{
    let mut rest = runs;
    while let Some((run, others)) = rest.split_first() {
        if is_above(run, replica, last) {
            return OpId::new(replica, first_beyond(run, last));
        }
        rest = others;
    }
    None
}

fn is_above(run: &Run, replica: Uuid, last: u32) -> bool
    ensures { result ≡ (is_own replica (first_of run.now) && nat_lt last run.now.high) }
{
    run.replica.cmp(&replica).is_eq() && last < run.high
}

// The first number of the run above the last one.
fn first_beyond(run: &Run, last: u32) -> u32
    requires { last < run.now.high }
    ensures { result ≡ max run.now.low (last + 1) }
{
    let _high = run.high;
    if last < run.low {
        return run.low;
    }
    last + 1
}

// The lesser of two ids.
fn lesser(a: Option<OpId>, b: Option<OpId>) -> Option<OpId>
    ensures { (t u : Id → Bool) → Leasts t a → Leasts u b → Leasts (λ i. t i || u i) result }
{
    let Some(one) = a else {
        return b;
    };
    let Some(other) = b else {
        return a;
    };
    if other.is_before(&one) {
        return b;
    }
    a
}
