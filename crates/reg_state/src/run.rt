//! Runs: ids of one replica without a gap.

ghost use Rattle.std.specs.Prelude.{◌≡◌, ◌&&◌};
ghost use Rattle.std.specs.Ordering.{is_lt};
ghost use Rattle.std.specs.Bool.{OnTrue, OnFalse};
ghost use Rattle.reg_op.specs.Ids.{id_cmp, is_before};
ghost use Rattle.reg_state.specs.Runs.{is_in_run, first_of, last_of, overlap, BeginsBy, IsApart, is_replica_by};
ghost use Rattle.reg_state.specs.Walks.{from_count};

use reg_op::OpId;
use std::cmp::Ordering;
use uuid::Uuid;

/// Consecutive ids of one replica.
#[derive(Clone, Copy, Debug, PartialEq, Eq)]
pub struct Run {
    pub replica: Uuid,
    pub low: u32,
    pub high: u32,
}

pub(crate) fn has_id(run: &Run, id: &OpId) -> bool
    ensures { result ≡ is_in_run id.now run.now }
{
    id.replica().cmp(&run.replica).is_eq() && run.low <= id.count() && id.count() <= run.high
}

// Whether the run's last id comes before an id.
pub(crate) fn ends_before(run: &Run, id: &OpId) -> bool
    ensures { result ≡ is_lt (id_cmp (last_of run.now) id.now) }
{
    match run.replica.cmp(&id.replica()) {
        Ordering::Less => true,
        Ordering::Equal => run.high < id.count(),
        Ordering::Greater => false,
    }
}

// Whether the run's replica is no later than one.
pub(crate) fn is_of_or_before(run: &Run, replica: &Uuid) -> bool
    ensures { result ≡ is_replica_by run.now.replica replica.now }
{
    !run.replica.cmp(replica).is_gt()
}

// Whether the first begins no later than the second.
pub(crate) fn begins_by(first: Run, second: Run) -> bool
    ensures yes { OnTrue result (BeginsBy first second) }
    ensures no { OnFalse result (BeginsBy second first) }
{
    match first.replica.cmp(&second.replica) {
        Ordering::Less => true,
        Ordering::Equal => first.low <= second.low,
        Ordering::Greater => false,
    }
}

// Whether the second begins after the first, and does not touch it.
pub(crate) fn is_apart(first: &Run, second: &Run) -> bool
    ensures yes { OnTrue result (IsApart first.now second.now) }
    ensures no { OnFalse result (¬ (IsApart first.now second.now)) }
{
    match first.replica.cmp(&second.replica) {
        Ordering::Less => true,
        Ordering::Equal => first.high < second.low && second.low - first.high > 1,
        Ordering::Greater => false,
    }
}

// Whether the first ends before the second begins.
pub(crate) fn comes_before(first: &Run, second: &Run) -> bool
    ensures { result ≡ is_before (last_of first.now) (first_of second.now) }
{
    match first.replica.cmp(&second.replica) {
        Ordering::Less => true,
        Ordering::Equal => first.high < second.low,
        Ordering::Greater => false,
    }
}

// The ids of a run from a count on.
pub(crate) fn from_count(run: Run, count: u32) -> Run
    ensures { result ≡ from_count count run }
{
    Run {
        low: run.low.max(count),
        ..run
    }
}

// Whether the runs have an id in common.
pub(crate) fn overlap(first: &Run, second: &Run) -> bool
    ensures { result ≡ overlap first.now second.now }
{
    first.replica.cmp(&second.replica).is_eq()
        && first.low.max(second.low) <= first.high.min(second.high)
}
