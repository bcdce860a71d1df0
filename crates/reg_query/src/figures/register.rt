//! The figures of a register: the lengths of its reports.

ghost use Rattle.std.specs.Prelude.{◌≡◌, length, map, IfOk};
ghost use Rattle.std.specs.List.{count_by};
ghost use Rattle.reg_op.specs.Set as set;
ghost use Rattle.reg_op.specs.Rows.{awaited};
ghost use Rattle.reg_report.specs.Seen.{row_seen};
ghost use Rattle.reg_query.specs.Figures.{has_status, AreCounts, AreCountsAmiss, AreFigures, CountsConflicts, CountsGaps};

use reg_disorder::{Disorder, count_amiss};
use reg_op::Status;
use reg_report::{Row, awaited, conflicts_in, gaps, rows};
use reg_state::Register;
use std::alloc::{AllocError, Global};

/// The figures of a register.
#[derive(Clone, Copy, Debug, PartialEq, Eq)]
pub struct Figures {
    /// The operations that it keeps.
    pub operations: usize,
    pub entries: usize,
    pub valid: usize,
    pub superseded: usize,
    pub retired: usize,
    /// Keys in conflict.
    pub conflicts: usize,
    /// Awaited ids: named by operations, and not entered.
    pub awaited: usize,
    /// Ranges of missing counts.
    pub gaps: usize,
    /// Keys with several entries of one text that are not retired.
    pub duplicates: usize,
    /// Superseded entries from which no chain of supersessions leads to a valid one.
    pub dangling: usize,
    /// Keys whose entries are all retired.
    pub withdrawn: usize,
}

/// The figures of a register. Its rows are made once, for all of them.
pub fn figures_of(alloc: Global, register: &Register) -> Result<Figures, AllocError>
    ensures { IfOk result (AreFigures register.now) }
{
    let rows = rows(alloc, register)?;
    let counts = counts_in(&rows);
    let conflicts = count_conflicts(alloc, &rows)?;
    let awaited = count_awaited(alloc, register)?;
    let gaps = count_gaps(alloc, register)?;
    let amiss = amiss_in(alloc, &rows)?;
    Ok(Figures {
        operations: register.ops().as_slice().len(),
        entries: counts.entries,
        valid: counts.valid,
        superseded: counts.superseded,
        retired: counts.retired,
        conflicts,
        awaited,
        gaps,
        duplicates: amiss.duplicates,
        dangling: amiss.dangling,
        withdrawn: amiss.withdrawn,
    })
}

/// The numbers of entries, in all and of each status.
#[derive(Clone, Copy)]
pub(crate) struct EntryCounts {
    entries: usize,
    valid: usize,
    superseded: usize,
    retired: usize,
}

fn counts_in(rows: &[Row]) -> EntryCounts
    ensures { AreCounts (map row_seen rows.now) result }
{
    EntryCounts {
        entries: rows.len(),
        valid: count_status(rows, Status::Valid),
        superseded: count_status(rows, Status::Superseded),
        retired: count_status(rows, Status::Retired),
    }
}

fn count_status(rows: &[Row], wanted: Status) -> usize
    ensures { result ≡ count_by (has_status wanted) (map row_seen rows.now) }
{
    rows.iter().filter(|row| has_status(row, wanted)).count()
}

fn has_status(row: &Row, wanted: Status) -> bool
    ensures { result ≡ has_status wanted (row_seen row.now) }
{
    row.status == wanted
}

/// The numbers of what is not in order.
#[derive(Clone, Copy)]
pub(crate) struct DisorderCounts {
    duplicates: usize,
    dangling: usize,
    withdrawn: usize,
}

fn amiss_in(alloc: Global, rows: &[Row]) -> Result<DisorderCounts, AllocError>
    ensures { IfOk result (AreCountsAmiss (map row_seen rows.now)) }
{
    let duplicates = count_amiss(alloc, rows, Disorder::Duplicates)?;
    let dangling = count_amiss(alloc, rows, Disorder::Dangling)?;
    let withdrawn = count_amiss(alloc, rows, Disorder::Withdrawn)?;
    Ok(DisorderCounts {
        duplicates,
        dangling,
        withdrawn,
    })
}

fn count_conflicts(alloc: Global, rows: &[Row]) -> Result<usize, AllocError>
    ensures { IfOk result (CountsConflicts (map row_seen rows.now)) }
{
    let conflicts = conflicts_in(alloc, rows)?;
    Ok(conflicts.len())
}

fn count_awaited(alloc: Global, register: &Register) -> Result<usize, AllocError>
    ensures { IfOk result (λ n. n ≡ length (set.items (awaited register.now.ops))) }
{
    let ids = awaited(alloc, register)?;
    Ok(ids.len())
}

fn count_gaps(alloc: Global, register: &Register) -> Result<usize, AllocError>
    ensures { IfOk result (CountsGaps register.now.seen) }
{
    let gaps = gaps(alloc, register)?;
    Ok(gaps.len())
}
