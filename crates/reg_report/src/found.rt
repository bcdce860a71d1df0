//! The row of an entry.

ghost use Rattle.std.specs.Prelude.{map, IfSome, IfNone};
ghost use Rattle.reg_op.specs.Rows.{Row as OneRow};
ghost use Rattle.reg_op.specs.Set.{Ascends};
ghost use Rattle.reg_report.specs.Rows.{row_cmp, HasRow};
ghost use Rattle.reg_report.specs.Seen.{row_seen};

use crate::row::Row;
use reg_op::OpId;

/// The row of an entry, among rows by id.
pub fn find_row<'a>(rows: &'a [Row], entry: OpId) -> Option<&'a Row>
    requires { Ascends row_cmp (map row_seen rows.now) }
    ensures some { IfSome result (λ row. HasRow (map row_seen rows.now) entry (row_seen row.now)) }
    ensures none { IfNone result ((r : OneRow) → ¬ (HasRow (map row_seen rows.now) entry r)) }
{
    match rows.binary_search_by_key(&entry, |row| row.entry) {
        Ok(at) => Some(&rows[at]),
        Err(_) => None,
    }
}
