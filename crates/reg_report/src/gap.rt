//! Gaps: counts that were not seen, below one that was.

ghost use Rattle.std.specs.Prelude.{◌≡◌, ◌++◌, IfOk, OnOk};
ghost use Rattle.reg_report.specs.Between.{last_count, gaps_at};
ghost use Rattle.reg_report.specs.Gaps.{AreGaps};

use reg_state::{Register, Run};
use std::alloc::{AllocError, Global};
use uuid::Uuid;

/// Counts of a replica that were not seen, below one that was.
#[derive(Clone, Copy, Debug, PartialEq, Eq)]
pub struct Gap {
    pub replica: Uuid,
    pub low: u32,
    pub high: u32,
}

/// The missing counts below each replica's greatest, ordered by replica and then by count.
pub fn gaps(alloc: Global, register: &Register) -> Result<Vec<Gap>, AllocError>
    ensures { IfOk result (λ gaps. AreGaps register.now.seen gaps.items) }
{
    let mut made = Vec::new(alloc);
    let mut before: Option<Run> = None;
    let mut rest = register.seen().runs();
    while let Some((run, others)) = rest.split_first() {
        push_gap(&mut made, before, *run)?;
        before = Some(*run);
        rest = others;
    }
    Ok(made)
}

fn push_gap(gaps: &mut Vec<Gap>, before: Option<Run>, run: Run) -> Result<(), AllocError>
    ensures { OnOk result (gaps.new.items ≡ gaps.old.items ++ gaps_at before run) }
{
    let last = last_count(before, run.replica);
    if last < run.low && run.low - last > 1 {
        gaps.push(Gap {
            replica: run.replica,
            low: last + 1,
            high: run.low - 1,
        })?;
    }
    Ok(())
}

fn last_count(before: Option<Run>, replica: Uuid) -> u32
    ensures { result ≡ last_count before replica }
{
    match before {
        None => 0,
        Some(run) => {
            if run.replica.cmp(&replica).is_eq() {
                run.high
            } else {
                0
            }
        }
    }
}
