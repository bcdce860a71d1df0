//! The ids that were seen, and their join.

ghost use Rattle.std.specs.Prelude.{◌≡◌, IfOk, OnOk, OnErr};
ghost use Rattle.std.specs.Bool.{OnTrue, OnFalse};
ghost use Rattle.std.specs.List.{list_any};
ghost use Rattle.reg_op.specs.Set as set;
ghost use Rattle.reg_op.specs.Pieces.{first_missing};
ghost use Rattle.reg_state.specs.Runs.{is_in_runs, ids_of_run, meets, overlap, seen_of, AreRuns, EndInIds, AllIds, AllUnder, IsAbove, IsGreatest, IsLastCount, IsRun, IsRunAt};
ghost use Rattle.reg_state.specs.SeenLaws.{united, Always, AlwaysAgree, seen_laws};

use crate::run::{Run, comes_before, ends_before, has_id, is_apart, is_of_or_before, overlap};
use crate::runs::join_runs;
use crate::seen_outside::{first_id_outside, runs_outside};
use reg_op::OpId;
use reg_op::joining::{Join, JoinFault};
use std::alloc::{AllocError, Global};
use std::convert::Infallible;
use std::marker::Model;
use uuid::Uuid;

/// The ids that were seen.
#[derive(Drop)]
pub struct Seen {
    runs: Vec<Run>,
}

impl Model for Seen {
    ghost use Rattle.reg_op.specs.Ids.{Ids, id_code};
    ghost use Rattle.reg_op.specs.Set as set;
    ghost use Rattle.reg_state.specs.Runs.{seen_of, AreSeen};

    ghost Value = { Ids };

    ghost coded = { set.code id_code };

    ghost view = { λ s. seen_of s.runs.items };

    ghost invariant = { λ s. AreSeen s.runs.items };
}

impl Seen {
    /// No ids.
    pub fn new(alloc: Global) -> Seen
        ensures { result ≡ set.empty }
    {
        Seen {
            runs: Vec::new(alloc),
        }
    }

    /// Whether the id was seen.
    pub fn contains(&self, id: OpId) -> bool
        ensures value { result ≡ set.contains self.now id }
        ensures ids { AllIds self.now }
    {
        is_covered(&self.runs, &id)
    }

    /// The greatest count of a replica, or 0 if none of its ids was seen.
    pub fn greatest(&self, replica: Uuid) -> u32
        ensures { IsGreatest self.now replica result }
    {
        last_count(&self.runs, &replica)
    }

    /// Whether some id of the run was seen.
    pub fn meets(&self, run: Run) -> bool
        ensures { result ≡ meets self.now run }
    {
        is_met(&self.runs, &run)
    }

    /// The least seen id that the other has not seen.
    pub fn first_outside(&self, other: &Seen) -> Option<OpId>
        ensures { result ≡ first_missing self.now other.now }
    {
        first_id_outside(&self.runs, &other.runs)
    }

    /// The seen ids that the other has not seen.
    pub fn outside(&self, alloc: Global, other: &Seen) -> Result<Seen, AllocError>
        ensures { IfOk result (λ made. made ≡ set.difference self.now other.now) }
    {
        let runs = runs_outside(alloc, &self.runs, &other.runs)?;
        Ok(Seen { runs })
    }

    /// The run at an index, from 0. Runs are as long as possible, ordered by replica and then by count.
    pub fn run(&self, k: usize) -> Option<Run>
        ensures value { IsRunAt self.now k result }
        ensures ids { AllIds self.now }
    {
        self.runs.get(k).copied()
    }

    /// The runs, made as long as possible, by replica and then by count.
    pub fn runs(&self) -> &[Run]
        ensures runs { AreRuns result.now }
        ensures all { seen_of result.now ≡ self.now }
        ensures ids { EndInIds result.now }
    {
        self.runs.as_slice()
    }

    /// Whether the run is valid, above all ids, and touches none: such a run can be added.
    pub fn is_next(&self, run: &Run) -> bool
        ensures yes { OnTrue result (IsRun run.now × IsAbove self.now run.now) }
        ensures no { OnFalse result (¬ (IsRun run.now × IsAbove self.now run.now)) }
    {
        if run.low == 0 {
            return false;
        }
        if run.high < run.low {
            return false;
        }
        is_above(&self.runs, run)
    }

    /// Adds a run that is above all ids, and touches none.
    pub fn add_run(&mut self, run: Run) -> Result<(), AllocError>
        requires run { IsRun run }
        requires above { IsAbove self.old run }
        ensures ok { OnOk result (self.new ≡ set.union self.old (set.from_list (ids_of_run run))) }
        ensures err { OnErr result (self.new ≡ self.old) }
    {
        let Some(last) = OpId::new(run.replica, run.high) else {
            unreachable!();
        };
        let high = last.count();
        self.runs.push(Run { high, ..run })?;
        Ok(())
    }

    /// A copy with its own memory.
    pub fn try_clone(&self, alloc: Global) -> Result<Seen, AllocError>
        ensures { IfOk result (λ copy. copy ≡ self.now) }
    {
        let runs = Vec::from_slice(alloc, &self.runs)?;
        Ok(Seen { runs })
    }
}

// Only the last of ascending runs can touch one above them.
fn is_above(runs: &[Run], run: &Run) -> bool
    requires { AreRuns runs.now }
    ensures yes { OnTrue result (AllUnder runs.now run.now) }
    ensures no { OnFalse result (¬ (AllUnder runs.now run.now)) }
{
    match runs.last() {
        None => true,
        Some(last) => is_apart(last, run),
    }
}

// Only the first run that does not end before the id can contain it.
fn is_covered(runs: &[Run], id: &OpId) -> bool
    requires { AreRuns runs.now }
    ensures { result ≡ is_in_runs id.now runs.now }
{
    let at = runs.partition_point(|run| ends_before(run, id));
    if at < runs.len() {
        return has_id(&runs[at], id);
    }
    false
}

// Only the first run that does not end before the run begins can overlap it.
fn is_met(runs: &[Run], run: &Run) -> bool
    requires { AreRuns runs.now }
    ensures { result ≡ list_any (overlap run.now) runs.now }
{
    let at = runs.partition_point(|one| comes_before(one, run));
    if at < runs.len() {
        return overlap(run, &runs[at]);
    }
    false
}

// The last run of a replica ends at its greatest count.
fn last_count(runs: &[Run], replica: &Uuid) -> u32
    requires { AreRuns runs.now }
    ensures { IsLastCount runs.now replica.now result }
{
    let end = runs.partition_point(|run| is_of_or_before(run, replica));
    if end == 0 {
        return 0;
    }
    let last = runs[end - 1];
    if last.replica.cmp(replica).is_eq() {
        return last.high;
    }
    0
}

impl Join for Seen {
    type Clash = Infallible;

    ghost nothing = { set.empty };

    ghost joined = { united };

    ghost merged = { set.union };

    ghost agree = { AlwaysAgree };

    ghost is_value = { Always };

    fn empty(alloc: Global) -> Seen {
        Seen::new(alloc)
    }

    fn join(&self, alloc: Global, other: &Seen) -> Result<Seen, JoinFault<Infallible>> {
        match join_runs(alloc, &self.runs, &other.runs) {
            Ok(runs) => Ok(Seen { runs }),
            Err(_) => Err(JoinFault::Memory),
        }
    }

    ghost laws = { seen_laws };
}
