//! Counts the ids of a replica in runs, and its operations in a list. Both are in order, so the part of the replica is found
//! by a search.

ghost use Rattle.std.specs.Prelude.{◌≡◌, ◌+◌, ◌-◌, ◌≤◌, true, false, length};
ghost use Rattle.std.specs.List.{count_by, prefix_len};
ghost use Rattle.std.specs.List.Sorted.{IsPartitionPoint};
ghost use Rattle.reg_op.specs.Lists.{ById};
ghost use Rattle.reg_op.specs.Operations.{Op as Operation};
ghost use Rattle.reg_state.specs.Runs.{ids_of_runs, AreRuns};
ghost use Rattle.reg_state.specs.Walks.{spans_of};
ghost use Rattle.reg_state.specs.declared.run.Run.{Run as OneRun};
ghost use Rattle.reg_query.specs.Offices.{is_of, is_op_of, is_below, is_same_replica};

use reg_op::Op;
use reg_state::Run;
use uuid::Uuid;

fn is_run_below(run: &Run, replica: Uuid) -> bool
    ensures { result ≡ is_below run.now.replica replica }
{
    run.replica.cmp(&replica).is_lt()
}

fn is_run_of(run: &Run, replica: Uuid) -> bool
    ensures { result ≡ is_same_replica run.now.replica replica }
{
    run.replica.cmp(&replica).is_eq()
}

// The number of runs of lesser replicas.
fn runs_below(runs: &[Run], replica: Uuid) -> usize
    requires { AreRuns runs.now }
    ensures bound { result ≤ length runs.now }
    ensures point { IsPartitionPoint (λ (r : OneRun). is_below r.replica replica ≡ true) (λ (r : OneRun). is_below r.replica replica ≡ false) runs.now result }
{
    runs.partition_point(|run| is_run_below(run, replica))
}

// The number of leading runs of the replica.
fn leading_runs(runs: &[Run], replica: Uuid) -> usize
    ensures { result ≡ prefix_len (λ (r : OneRun). is_same_replica r.replica replica) runs.now }
{
    runs.iter()
        .take_while(|run| is_run_of(run, replica))
        .count()
}

// The runs of a replica.
fn runs_of(runs: &[Run], replica: Uuid) -> &[Run]
    requires { AreRuns runs.now }
    ensures { spans_of result.now ≡ count_by (is_of replica) (ids_of_runs runs.now) }
{
    let low = runs_below(runs, replica);
    let rest = &runs[low..];
    let count = leading_runs(rest, replica);
    &rest[..count]
}

// The number of ids in a run.
fn span(run: &Run) -> u64
    ensures { result ≡ run.now.high + 1 - run.now.low }
{
    (u64::from(run.high) + 1).saturating_sub(u64::from(run.low))
}

// A number minus the number of ids in the runs.
fn less(number: u32, runs: &[Run]) -> u64
    ensures { result ≡ number - spans_of runs.now }
{
    let mut left = u64::from(number);
    let mut rest = runs;
    while let Some((run, others)) = rest.split_first() {
        left = left.saturating_sub(span(run));
        rest = others;
    }
    left
}

/// The number of counts up to this one that are in no run of the replica.
pub(crate) fn missing_of(runs: &[Run], replica: Uuid, greatest: u32) -> u32
    requires { AreRuns runs.now }
    ensures { result ≡ greatest - count_by (is_of replica) (ids_of_runs runs.now) }
{
    less(greatest, runs_of(runs, replica)) as u32
}

fn is_op_below(op: &Op, replica: Uuid) -> bool
    ensures { result ≡ is_below op.now.id.replica replica }
{
    op.id().replica().cmp(&replica).is_lt()
}

fn is_op_of(op: &Op, replica: Uuid) -> bool
    ensures { result ≡ is_op_of replica op.now }
{
    op.id().replica().cmp(&replica).is_eq()
}

// The number of operations of lesser replicas.
fn ops_below(ops: &[Op], replica: Uuid) -> usize
    requires { ById ops.now }
    ensures bound { result ≤ length ops.now }
    ensures point { IsPartitionPoint (λ (o : Operation). is_below o.id.replica replica ≡ true) (λ (o : Operation). is_below o.id.replica replica ≡ false) ops.now result }
{
    ops.partition_point(|op| is_op_below(op, replica))
}

// The number of leading operations of the replica.
fn leading_ops(ops: &[Op], replica: Uuid) -> usize
    ensures { result ≡ prefix_len (is_op_of replica) ops.now }
{
    ops.iter().take_while(|op| is_op_of(op, replica)).count()
}

/// The number of operations of the replica.
pub(crate) fn count_of(ops: &[Op], replica: Uuid) -> usize
    requires { ById ops.now }
    ensures { result ≡ count_by (is_op_of replica) ops.now }
{
    let low = ops_below(ops, replica);
    leading_ops(&ops[low..], replica)
}
