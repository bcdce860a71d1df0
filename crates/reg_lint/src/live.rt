//! Entries of a register that are not retired.

ghost use Rattle.std.specs.Prelude.{◌≡◌, ◌++◌, List, [], map, filter, Some, IfOk, OnOk};
ghost use Rattle.std.specs.List.{cons_option};
ghost use Rattle.reg_report.specs.Seen.{row_seen};
ghost use Rattle.reg_lint.specs.Subjects.{Subject, asked, has_status, is_retired, IsLiveKept, AreLiveKept, AreLiveWith, AreKept};

use crate::kept::{KeptSubject, Room, form_of_entry};
use reg_op::Status;
use reg_report::{Row, printed, rows};
use reg_state::Register;
use std::alloc::{AllocError, Global};

/// What is kept of the entries that are not retired and have this status, by id; without one, of all that are not retired.
pub fn subjects_with(
    alloc: Global,
    register: &Register,
    status: Option<Status>,
) -> Result<Vec<KeptSubject>, AllocError>
    ensures { IfOk result (λ kept. (subjects : List Subject) × AreLiveWith status register.now subjects × AreKept kept.items subjects) }
{
    let mut rows = rows(alloc, register)?;
    keep_asked(&mut rows, status);
    let kept = live_of_rows(alloc, rows)?;
    Ok(kept)
}

// Keeps the rows with the status, if one is asked for.
fn keep_asked(rows: &mut Vec<Row>, status: Option<Status>)
    ensures { map row_seen rows.new.items ≡ asked status (map row_seen rows.old.items) }
{
    if let Some(status) = status {
        keep_status(rows, status);
    }
}

fn keep_status(rows: &mut Vec<Row>, status: Status)
    ensures { rows.new.items ≡ filter (λ r. has_status status (row_seen r)) rows.old.items }
{
    rows.retain(|row| has_status(row, status));
}

fn has_status(row: &Row, status: Status) -> bool
    ensures { result ≡ has_status status (row_seen row.now) }
{
    row.status == status
}

/// What is kept of the entries of these rows that are not retired, in order.
pub(crate) fn live_of_rows(alloc: Global, rows: Vec<Row>) -> Result<Vec<KeptSubject>, AllocError>
    ensures { IfOk result (λ kept. AreLiveKept (map row_seen rows.items) kept.items) }
{
    let mut kept = Vec::with_capacity(alloc, rows.len())?;
    let mut room = Room::new();
    for row in rows {
        let live = live_of(alloc, &mut room, &row)?;
        push_some(&mut kept, live)?;
    }
    Ok(kept)
}

fn push_some(kept: &mut Vec<KeptSubject>, live: Option<KeptSubject>) -> Result<(), AllocError>
    ensures { OnOk result (kept.new.items ≡ kept.old.items ++ cons_option live []) }
{
    if let Some(live) = live {
        kept.push(live)?;
    }
    Ok(())
}

// What is kept of the entry of a row, unless it is retired.
fn live_of(alloc: Global, room: &mut Room, row: &Row) -> Result<Option<KeptSubject>, AllocError>
    ensures { IfOk result (IsLiveKept (row_seen row.now)) }
{
    if is_retired(row.status) {
        return Ok(None);
    }
    let label = printed(alloc, row.entry)?;
    let form = form_of_entry(alloc, room, &row.definition)?;
    Ok(Some(KeptSubject { label, form }))
}

fn is_retired(status: Status) -> bool
    ensures { result ≡ is_retired (Some status) }
{
    match status {
        Status::Valid => false,
        Status::Superseded => false,
        Status::Retired => true,
    }
}
