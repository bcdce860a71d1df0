//! The gaps of a register, each made of a run of seen ids and the run before it.

ghost use Rattle.std.specs.Prelude.{◌≡◌, ◌∷◌, [], length, None, IfSome, IfNone, OnOk};
ghost use Rattle.html_page.specs.Pieces.{Appends};
ghost use Rattle.reg_report.specs.Between.{last_count, gaps_at, gaps_between};
ghost use Rattle.reg_page.specs.Blocks.{gap_pieces};
ghost use Rattle.reg_page.specs.Page.{named};

use crate::missing::push_gap;
use csv_table::offices::Name;
use reg_report::Gap;
use reg_state::Run;
use std::alloc::{AllocError, Global};
use uuid::Uuid;

// The last count of the run before, if it is of the replica, or 0.
fn last_count(before: Option<Run>, replica: Uuid) -> u32
    ensures { result ≡ last_count before replica }
{
    match before {
        None => 0,
        Some(run) => {
            if run.replica.cmp(&replica).is_eq() {
                run.high
            } else {
                0
            }
        }
    }
}

// The counts of a run's replica that are missing between the run before it and the run, if there are some.
fn gap_before(before: Option<Run>, run: Run) -> Option<Gap>
    ensures some { IfSome result (λ one. gaps_at before run ≡ one ∷ []) }
    ensures none { IfNone result (gaps_at before run ≡ []) }
{
    let last = last_count(before, run.replica);
    if last < run.low && run.low - last > 1 {
        return Some(Gap {
            replica: run.replica,
            low: last + 1,
            high: run.low - 1,
        });
    }
    None
}

// How many gaps there are between two runs.
fn count_before(before: Option<Run>, run: Run) -> usize
    ensures { result ≡ length (gaps_at before run) }
{
    match gap_before(before, run) {
        Some(_) => 1,
        None => 0,
    }
}

/// How many gaps there are below the runs and between them.
pub fn count_gaps(runs: &[Run]) -> usize
    ensures { result ≡ length (gaps_between None runs.now) }
{
    let mut count = 0usize;
    let mut before: Option<Run> = None;
    for run in runs {
        count += count_before(before, *run);
        before = Some(*run);
    }
    count
}

/// Appends the gap between two runs, if there is one.
pub fn push_gap_before(
    alloc: Global,
    page: &mut Vec<u8>,
    names: &[Name],
    before: Option<Run>,
    run: Run,
) -> Result<(), AllocError>
    ensures { OnOk result (Appends page.old.items page.new.items (gap_pieces (named names.now) (gaps_at before run))) }
{
    let Some(one) = gap_before(before, run) else {
        return Ok(());
    };
    push_gap(alloc, page, names, &one)?;
    Ok(())
}
