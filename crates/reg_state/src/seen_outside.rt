//! The difference of two lists of runs, run by run.

ghost use Rattle.std.specs.Prelude.{◌≡◌, IfOk, IfSome, IfNone, false};
ghost use Rattle.reg_op.specs.Ids.{Id};
ghost use Rattle.reg_state.specs.Runs.{is_in_runs, AreRuns, EndInIds};
ghost use Rattle.reg_state.specs.Walks.{is_left, is_outside, IsLeastOf, IsTaken, IsWalk};

use crate::run::{Run, comes_before, from_count};
use reg_op::OpId;
use std::alloc::{AllocError, Global};

/// Two lists of runs; the ids of the second are removed from the first.
#[derive(Clone, Copy)]
pub(crate) struct RunWalk<'a> {
    lefts: &'a [Run],
    rights: &'a [Run],
    // The first run on the left has only the ids from this count on.
    low: u32,
}

impl<'a> RunWalk<'a> {
    pub(crate) fn new(left: &'a [Run], right: &'a [Run]) -> RunWalk<'a>
        requires left { AreRuns left.now }
        requires right { AreRuns right.now }
        requires ids { EndInIds left.now }
        ensures walk { IsWalk result }
        ensures same { (i : Id) → is_left result i ≡ is_outside left.now right.now i }
    {
        RunWalk {
            lefts: left,
            rights: right,
            low: 0,
        }
    }

    // The left list, from a count of its first run on, and the right list.
    fn counted(lefts: &'a [Run], rights: &'a [Run], low: u32) -> RunWalk<'a>
        ensures lefts { result.lefts.now ≡ lefts.now }
        ensures rights { result.rights.now ≡ rights.now }
        ensures low { result.low ≡ low }
    {
        RunWalk { lefts, rights, low }
    }

    /// The first run outside, and the rest after it.
    pub(crate) fn next_run(self) -> Option<(Run, RunWalk<'a>)>
        requires { IsWalk self }
        ensures none { IfNone result ((i : Id) → is_left self.entry i ≡ false) }
        ensures taken { IfSome result (λ next. IsTaken self.entry next.0 next.1) }
    {
        let mut lefts = self.lefts;
        let mut rights = self.rights;
        let mut low = self.low;
        while let (Some((first, others)), Some((other, rest))) = (
            lefts.split_first(),
            rights.split_first(),
        ) {
            let run = from_count(*first, low);
            if comes_before(other, &run) {
                rights = rest;
            } else if comes_before(&run, other) {
                return Some((run, RunWalk::counted(others, rights, 0)));
            } else if run.low < other.low {
                let front = Run {
                    high: other.low - 1,
                    ..run
                };
                return Some((front, RunWalk::counted(lefts, rights, other.low)));
            } else if other.high < run.high {
                low = other.high + 1;
                rights = rest;
            } else {
                lefts = others;
                low = 0;
            }
        }
        let Some((first, others)) = lefts.split_first() else {
            return None;
        };
        let run = from_count(*first, low);
        Some((run, RunWalk::counted(others, rights, 0)))
    }
}

// The runs that are only on the left.
pub(crate) fn runs_outside(
    alloc: Global,
    left: &[Run],
    right: &[Run],
) -> Result<Vec<Run>, AllocError>
    requires left { AreRuns left.now }
    requires right { AreRuns right.now }
    requires ids { EndInIds left.now }
    ensures runs { IfOk result (λ out. AreRuns out.items) }
    ensures ids { IfOk result (λ out. EndInIds out.items) }
    ensures outside { IfOk result (λ out. (i : Id) → is_in_runs i out.items ≡ is_outside left.now right.now i) }
{
    let mut out = Vec::new(alloc);
    let mut walk = RunWalk::new(left, right);
    while let Some((run, rest)) = walk.next_run() {
        out.push(run)?;
        walk = rest;
    }
    Ok(out)
}

// The first id that is only on the left.
pub(crate) fn first_id_outside(left: &[Run], right: &[Run]) -> Option<OpId>
    requires left { AreRuns left.now }
    requires right { AreRuns right.now }
    requires ids { EndInIds left.now }
    ensures none { IfNone result ((i : Id) → is_outside left.now right.now i ≡ false) }
    ensures least { IfSome result (λ id. IsLeastOf (is_outside left.now right.now) id) }
{
    let Some((run, _rest)) = RunWalk::new(left, right).next_run() else {
        return None;
    };
    OpId::new(run.replica, run.low)
}
