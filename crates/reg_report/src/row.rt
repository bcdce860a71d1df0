//! The rows of a register: its entries, with their statuses.

ghost use Rattle.std.specs.Prelude.{◌≡◌, ◌≢◌, ◌↔◌, ◌++◌, true, map, Some, IsTrue, IfOk, OnOk};
ghost use Rattle.reg_op.specs.Set as set;
ghost use Rattle.reg_op.specs.Set.{Ascends};
ghost use Rattle.reg_op.specs.Operations.{Ops};
ghost use Rattle.reg_op.specs.Rows.{rows_at, rows};
ghost use Rattle.reg_op.specs.declared.status.Status.TheVariants.{Retired};
ghost use Rattle.reg_report.specs.Marks.{AreMarksOn};
ghost use Rattle.reg_report.specs.Rows.{row_cmp};
ghost use Rattle.reg_report.specs.Seen.{row_seen};

use crate::marks::{leading, marks_of, newer_by, skip_below, status_by};
use reg_op::{Definition, Op, OpBody, OpId, Status};
use reg_state::{MarkTarget, Register};
use std::alloc::{AllocError, Global};

/// An entry with its status and, if it is superseded, the newer entries. Its definition has the key and the name.
#[derive(Drop)]
pub struct Row {
    pub entry: OpId,
    pub definition: Definition,
    pub status: Status,
    pub newer: Vec<OpId>,
}

/// Whether the entry is not retired.
pub fn is_live(row: &Row) -> bool
    ensures { IsTrue result ↔ ((row_seen row.now).status ≢ Some Retired) }
{
    row.status != Status::Retired
}

/// A row for each entry, by id. The operations and their sorted marks are walked once, side by side.
pub fn rows(alloc: Global, register: &Register) -> Result<Vec<Row>, AllocError>
    ensures rows { IfOk result (λ made. map row_seen made.items ≡ rows register.now.ops) }
    ensures order { IfOk result (λ made. Ascends row_cmp (map row_seen made.items)) }
{
    let ops = register.ops().as_slice();
    let marks = marks_of(alloc, ops)?;
    let mut rest: &[MarkTarget] = &marks;
    let mut made = Vec::new(alloc);
    for op in ops {
        rest = skip_below(rest, op.id());
        push_row(alloc, &mut made, leading(rest, op.id()), op)?;
    }
    Ok(made)
}

/// Appends the row of the entry, if the operation enters one. The marks are those on it.
pub fn push_row(
    alloc: Global,
    rows: &mut Vec<Row>,
    own: &[MarkTarget],
    op: &Op,
) -> Result<(), AllocError>
    ensures { OnOk result ((s : Ops) → set.contains s op.now ≡ true → AreMarksOn s op.now.id own.now → map row_seen rows.new.items ≡ map row_seen rows.old.items ++ rows_at s op.now.id op.now.body) }
{
    let definition = match op.body() {
        OpBody::Enter(definition) => definition,
        OpBody::Supersede { old: _, newer: _ } => return Ok(()),
        OpBody::Retire { entry: _ } => return Ok(()),
    };
    let definition = definition.try_clone(alloc)?;
    let newer = newer_by(alloc, own)?;
    let row = Row {
        entry: op.id(),
        definition,
        status: status_by(own),
        newer,
    };
    rows.push(row)?;
    Ok(())
}
