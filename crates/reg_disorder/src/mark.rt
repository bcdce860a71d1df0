//! What rows say of their keys.

ghost use Rattle.std.specs.Prelude.{◌≡◌, ◌↔◌, [], List, Contains, IsTrue, map, IfOk, OnOk};
ghost use Rattle.reg_op.specs.Set.{Ascends};
ghost use Rattle.reg_report.specs.Rows.{row_cmp};
ghost use Rattle.reg_report.specs.Seen.{row_seen};
ghost use Rattle.reg_disorder.specs.Marks.{Mark as OneMark, mark_seen, IsOwn, IsBy, Succeeds, OfSome, IsMarkBy, IsMarkOf, IsMark, AreMarks, Gains};

use crate::standing::{is_retired, is_superseded};
use reg_op::OpId;
use reg_report::{KeyText, Row, find_row, key_of};
use std::alloc::{AllocError, Global};

/// A statement of a row about its key: whether the entry is not retired, whether it is superseded, and the key of an entry that
/// supersedes it and is neither retired nor of the same key.
#[derive(Clone, Copy, PartialEq, Eq, PartialOrd, Ord)]
pub struct Mark<'a> {
    pub key: KeyText<'a>,
    pub live: bool,
    pub superseded: bool,
    pub by: Option<KeyText<'a>>,
}

// The statement about the row's own status.
fn own_mark<'a>(row: &'a Row) -> Mark<'a>
    ensures { IsOwn (row_seen row.now) (mark_seen result) }
{
    Mark {
        key: key_of(row),
        live: !is_retired(row),
        superseded: is_superseded(row),
        by: None,
    }
}

// The statement that the row's entry is superseded by that of the other row.
fn mark_by<'a>(row: &'a Row, newer: &'a Row) -> Mark<'a>
    ensures { IsBy (row_seen row.now) (row_seen newer.now) (mark_seen result) }
{
    Mark {
        key: key_of(row),
        live: true,
        superseded: true,
        by: Some(key_of(newer)),
    }
}

fn succeeds<'a>(row: &'a Row, newer: &'a Row) -> bool
    ensures { IsTrue result ↔ Succeeds (row_seen row.now) (row_seen newer.now) }
{
    let own = key_of(row);
    let other = key_of(newer);
    !is_retired(newer) && !own.cmp(&other).is_eq()
}

fn push_mark_by<'a>(
    made: &mut Vec<Mark<'a>>,
    rows: &'a [Row],
    row: &'a Row,
    entry: OpId,
) -> Result<(), AllocError>
    requires { Ascends row_cmp (map row_seen rows.now) }
    ensures { OnOk result (Gains (IsMarkBy (map row_seen rows.now) (row_seen row.now) entry) (map mark_seen made.old.items) (map mark_seen made.new.items)) }
{
    let Some(newer) = find_row(rows, entry) else {
        return Ok(());
    };
    if !succeeds(row, newer) {
        return Ok(());
    }
    made.push(mark_by(row, newer))?;
    Ok(())
}

// Appends a mark for each successor of the row's entry.
fn push_marks_by<'a>(
    made: &mut Vec<Mark<'a>>,
    rows: &'a [Row],
    row: &'a Row,
) -> Result<(), AllocError>
    requires { Ascends row_cmp (map row_seen rows.now) }
    ensures { OnOk result (Gains (OfSome (IsMarkBy (map row_seen rows.now) (row_seen row.now)) (row_seen row.now).newer) (map mark_seen made.old.items) (map mark_seen made.new.items)) }
{
    for entry in &row.newer {
        push_mark_by(made, rows, row, *entry)?;
    }
    Ok(())
}

fn push_marks<'a>(made: &mut Vec<Mark<'a>>, rows: &'a [Row], row: &'a Row) -> Result<(), AllocError>
    requires { Ascends row_cmp (map row_seen rows.now) }
    ensures { OnOk result (Gains (IsMarkOf (map row_seen rows.now) (row_seen row.now)) (map mark_seen made.old.items) (map mark_seen made.new.items)) }
{
    made.push(own_mark(row))?;
    push_marks_by(made, rows, row)?;
    Ok(())
}

// The marks of the rows, in any order.
fn gathered<'a>(alloc: Global, rows: &'a [Row]) -> Result<Vec<Mark<'a>>, AllocError>
    requires { Ascends row_cmp (map row_seen rows.now) }
    ensures { IfOk result (λ made. Gains (IsMark (map row_seen rows.now)) [] (map mark_seen made.items)) }
{
    let mut made = Vec::new(alloc);
    for row in rows {
        push_marks(&mut made, rows, row)?;
    }
    Ok(made)
}

/// All marks of the rows, in order, each once.
pub fn marks<'a>(alloc: Global, rows: &'a [Row]) -> Result<Vec<Mark<'a>>, AllocError>
    requires { Ascends row_cmp (map row_seen rows.now) }
    ensures { IfOk result (λ made. AreMarks (map row_seen rows.now) (map mark_seen made.items)) }
{
    let mut made = gathered(alloc, rows)?;
    made.sort_unstable();
    made.dedup();
    Ok(made)
}
