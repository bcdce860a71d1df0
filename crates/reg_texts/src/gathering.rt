//! Gathers the statements of a register about its texts.

ghost use Rattle.std.specs.Prelude.{◌≡◌, ◌++◌, List, map, IfOk, OnOk};
ghost use Rattle.reg_op.specs.Set.{Ascends};
ghost use Rattle.reg_report.specs.Seen.{row_seen};
ghost use Rattle.reg_report.specs.Rows.{row_cmp};
ghost use Rattle.reg_texts.specs.Compare.{seen_rows};
ghost use Rattle.reg_texts.specs.Said.{IsLive, Said, said, SaysStatus};
ghost use Rattle.reg_texts.specs.Gathered.{Each, AreGathered, AreOfRow, IsSaidBy, IsOfSuccessor};

use crate::saying::Saying;
use reg_op::{OpId, Status};
use reg_report::{Row, find_row, is_live, key_of};
use std::alloc::{AllocError, Global};

/// The statements of the register about the text of each row, row by row.
pub fn sayings<'a>(alloc: Global, rows: &'a [Row]) -> Result<Vec<Saying<'a>>, AllocError>
    requires { Ascends row_cmp (map row_seen rows.now) }
    ensures { IfOk result (λ made. AreGathered (map row_seen rows.now) (map said made.items)) }
{
    let mut made = Vec::new(alloc);
    let mut rest = rows;
    while let Some((row, others)) = rest.split_first() {
        push_row(&mut made, rows, row)?;
        rest = others;
    }
    Ok(made)
}

/// The same about the texts of some rows.
pub fn sayings_about<'a>(
    alloc: Global,
    rows: &'a [Row],
    some: &'a [&Row],
) -> Result<Vec<Saying<'a>>, AllocError>
    requires { Ascends row_cmp (map row_seen rows.now) }
    ensures { IfOk result (λ made. Each (AreOfRow (map row_seen rows.now)) (seen_rows some.now) (map said made.items)) }
{
    let mut made = Vec::new(alloc);
    for row in some {
        push_row(&mut made, rows, *row)?;
    }
    Ok(made)
}

// Appends the statement about the row's text.
fn push_row<'a>(made: &mut Vec<Saying<'a>>, rows: &'a [Row], row: &'a Row) -> Result<(), AllocError>
    requires { Ascends row_cmp (map row_seen rows.now) }
    ensures { OnOk result ((mine : List Said) × AreOfRow (map row_seen rows.now) (row_seen row.now) mine × (map said made.new.items ≡ map said made.old.items ++ mine)) }
{
    if !is_live(row) {
        return Ok(());
    }
    made.push(status_of(row))?;
    push_successors(made, rows, row)?;
    Ok(())
}

// Says that the row's text is valid, or that it is superseded.
fn status_of<'a>(row: &'a Row) -> Saying<'a>
    requires { IsLive (row_seen row.now) }
    ensures { SaysStatus (row_seen row.now) (said result) }
{
    Saying {
        key: key_of(row),
        text: row.definition.as_bytes(),
        valid: row.status == Status::Valid,
        by: None,
    }
}

// Says that the row's text is superseded by an entry with the key of the other row.
fn successor_of<'a>(row: &'a Row, newer: &'a Row) -> Saying<'a>
    ensures { IsOfSuccessor (row_seen row.now) (row_seen newer.now) (said result) }
{
    Saying {
        key: key_of(row),
        text: row.definition.as_bytes(),
        valid: false,
        by: Some(key_of(newer)),
    }
}

// Appends the keys of the row's successors that are not retired.
fn push_successors<'a>(
    made: &mut Vec<Saying<'a>>,
    rows: &'a [Row],
    row: &'a Row,
) -> Result<(), AllocError>
    requires { Ascends row_cmp (map row_seen rows.now) }
    ensures { OnOk result ((mine : List Said) × Each (IsSaidBy (map row_seen rows.now) (row_seen row.now)) (row_seen row.now).newer mine × (map said made.new.items ≡ map said made.old.items ++ mine)) }
{
    let mut rest = row.newer.as_slice();
    while let Some((entry, others)) = rest.split_first() {
        push_successor(made, rows, row, *entry)?;
        rest = others;
    }
    Ok(())
}

fn push_successor<'a>(
    made: &mut Vec<Saying<'a>>,
    rows: &'a [Row],
    row: &'a Row,
    entry: OpId,
) -> Result<(), AllocError>
    requires { Ascends row_cmp (map row_seen rows.now) }
    ensures { OnOk result ((mine : List Said) × IsSaidBy (map row_seen rows.now) (row_seen row.now) entry mine × (map said made.new.items ≡ map said made.old.items ++ mine)) }
{
    let Some(newer) = find_row(rows, entry) else {
        return Ok(());
    };
    if !is_live(newer) {
        return Ok(());
    }
    made.push(successor_of(row, newer))?;
    Ok(())
}
