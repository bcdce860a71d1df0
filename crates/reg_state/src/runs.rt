//! Lists of runs.

ghost use Rattle.std.specs.Prelude.{◌≡◌, ◌||◌, IfOk, OnOk};
ghost use Rattle.reg_op.specs.Ids.{Id, IsId};
ghost use Rattle.reg_state.specs.Runs.{is_in_run, is_in_runs, last_of, AreRuns, EndInIds, IsRun, AllBegin, BeginsBy, NextBegins};

use crate::run::{Run, begins_by};
use std::alloc::{AllocError, Global};

// Appends a run, which may join the last one.
fn push_run(runs: &mut Vec<Run>, run: Run) -> Result<(), AllocError>
    requires runs { AreRuns runs.old.items }
    requires run { IsRun run }
    requires order { AllBegin runs.old.items run }
    ensures runs { OnOk result (AreRuns runs.new.items) }
    ensures covered { OnOk result ((i : Id) → is_in_runs i runs.new.items ≡ (is_in_runs i runs.old.items || is_in_run i run)) }
    ensures order { OnOk result ((s : Run) → BeginsBy run s → AllBegin runs.new.items s) }
    ensures ids { OnOk result (EndInIds runs.old.items → IsId (last_of run) → EndInIds runs.new.items) }
{
    match runs.pop() {
        None => runs.push(run)?,
        Some(last) => {
            if last.replica.cmp(&run.replica).is_eq() && run.low - 1 <= last.high {
                runs.push(Run {
                    replica: last.replica,
                    low: last.low,
                    high: last.high.max(run.high),
                })?;
            } else {
                runs.push(last)?;
                runs.push(run)?;
            }
        }
    }
    Ok(())
}

// Appends runs, in order.
fn push_runs(out: &mut Vec<Run>, runs: &[Run]) -> Result<(), AllocError>
    requires out { AreRuns out.old.items }
    requires runs { AreRuns runs.now }
    requires order { NextBegins out.old.items runs.now }
    requires out_ids { EndInIds out.old.items }
    requires runs_ids { EndInIds runs.now }
    ensures runs { OnOk result (AreRuns out.new.items) }
    ensures ids { OnOk result (EndInIds out.new.items) }
    ensures covered { OnOk result ((i : Id) → is_in_runs i out.new.items ≡ (is_in_runs i out.old.items || is_in_runs i runs.now)) }
{
    let mut rest = runs;
    while let Some((run, others)) = rest.split_first() {
        push_run(out, *run)?;
        rest = others;
    }
    Ok(())
}

// Joins two lists of runs, by a walk along both.
pub(crate) fn join_runs(alloc: Global, left: &[Run], right: &[Run]) -> Result<Vec<Run>, AllocError>
    requires left { AreRuns left.now }
    requires right { AreRuns right.now }
    requires left_ids { EndInIds left.now }
    requires right_ids { EndInIds right.now }
    ensures runs { IfOk result (λ out. AreRuns out.items) }
    ensures ids { IfOk result (λ out. EndInIds out.items) }
    ensures covered { IfOk result (λ out. (i : Id) → is_in_runs i out.items ≡ (is_in_runs i left.now || is_in_runs i right.now)) }
{
    let mut out = Vec::new(alloc);
    let mut lefts = left;
    let mut rights = right;
    while let (Some((a, left_rest)), Some((b, right_rest))) = (
        lefts.split_first(),
        rights.split_first(),
    ) {
        if begins_by(*a, *b) {
            push_run(&mut out, *a)?;
            lefts = left_rest;
        } else {
            push_run(&mut out, *b)?;
            rights = right_rest;
        }
    }
    if lefts.is_empty() {
        push_runs(&mut out, rights)?;
        return Ok(out);
    }
    push_runs(&mut out, lefts)?;
    Ok(out)
}
