//! The entries that are not retired.

ghost use Rattle.std.specs.Prelude.{◌≡◌, map, filter, Some, IfOk};
ghost use Rattle.reg_op.specs.Rows.{rows};
ghost use Rattle.reg_report.specs.Seen.{row_seen};
ghost use Rattle.reg_import.specs.Known.{is_valid, IsKnown, stands};

use reg_op::{OpId, Status};
use reg_report::{Row, rows};
use reg_state::Register;
use std::alloc::{AllocError, Global};
use wkt_crs::{Definition, SharedKey};

/// An entry that is not retired: its text, its key, and whether it is valid.
#[derive(Drop)]
pub struct StandingEntry {
    pub entry: OpId,
    pub key: SharedKey,
    pub definition: Definition,
    pub valid: bool,
}

/// Whether the entry is not retired.
pub fn stands(row: &Row) -> bool
    ensures { result ≡ stands (row_seen row.now) }
{
    row.status != Status::Retired
}

fn keep_those_that_stand(rows: &mut Vec<Row>)
    ensures { rows.new.items ≡ filter (λ r. stands (row_seen r)) rows.old.items }
{
    rows.retain(|row| stands(row));
}

/// The rows of the register's entries that are not retired, by id.
pub fn standing(alloc: Global, register: &Register) -> Result<Vec<Row>, AllocError>
    ensures { IfOk result (λ made. map row_seen made.items ≡ filter stands (rows register.now.ops)) }
{
    let mut rows = rows(alloc, register)?;
    keep_those_that_stand(&mut rows);
    Ok(rows)
}

fn is_valid(status: Status) -> bool
    ensures { result ≡ is_valid (Some status) }
{
    match status {
        Status::Valid => true,
        Status::Superseded => false,
        Status::Retired => false,
    }
}

/// The entry of a row.
pub fn known_of(alloc: Global, row: &Row) -> Result<StandingEntry, AllocError>
    ensures { IfOk result (IsKnown (row_seen row.now)) }
{
    let key = row.definition.shared_key(alloc)?;
    let definition = row.definition.try_clone(alloc)?;
    Ok(StandingEntry {
        entry: row.entry,
        key,
        definition,
        valid: is_valid(row.status),
    })
}
