//! Whether the entry of a row is retired, or superseded.

ghost use Rattle.std.specs.Prelude.{◌≡◌, ◌↔◌, IsTrue, Some};
ghost use Rattle.reg_op.specs.declared.status.Status.TheVariants.{Superseded};
ghost use Rattle.reg_report.specs.Exports.{is_retired};
ghost use Rattle.reg_report.specs.Seen.{row_seen};

use reg_op::Status;
use reg_report::Row;

/// Whether the entry is retired.
pub fn is_retired(row: &Row) -> bool
    ensures { result ≡ is_retired (row_seen row.now).status }
{
    match row.status {
        Status::Retired => true,
        Status::Superseded => false,
        Status::Valid => false,
    }
}

/// Whether it is superseded.
pub fn is_superseded(row: &Row) -> bool
    ensures { IsTrue result ↔ ((row_seen row.now).status ≡ Some Superseded) }
{
    row.status == Status::Superseded
}
