//! The row of each key that is kept.

ghost use Rattle.std.specs.Prelude.{◌≡◌, IfOk, OnOk};
ghost use Rattle.reg_report.specs.Keys.{key_bytes};
ghost use Rattle.reg_report.specs.Seen.{row_seen};
ghost use Rattle.reg_disorder.specs.Keeping.{At, Holds, seen_in, with_row};

use reg_report::{KeyText, Row};
use std::alloc::AllocError;
use std::collections::BTreeMap;

/// Keeps a row of the key, and returns the one that it replaces.
pub fn keep<'a>(
    kept: &mut BTreeMap<KeyText<'a>, &'a Row>,
    key: KeyText<'a>,
    row: &'a Row,
) -> Result<Option<&'a Row>, AllocError>
    ensures before { (at : At) → Holds kept.old at → IfOk result (λ before. seen_in before ≡ at (key_bytes key.entry)) }
    ensures after { (at : At) → Holds kept.old at → OnOk result (Holds kept.new (with_row (key_bytes key.entry) (row_seen row.now) at)) }
{
    let before = kept.insert(key, row)?;
    Ok(before)
}
