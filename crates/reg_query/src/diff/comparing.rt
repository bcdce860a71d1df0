//! The comparison of two registers.

ghost use Rattle.std.specs.Prelude.{◌↔◌, IsTrue, IfOk};
ghost use Rattle.reg_query.specs.DiffLines.{IsDiff, Differ};

use crate::diff::lines::changes_text;
use crate::diff::walk::changes;
use reg_report::rows;
use reg_state::Register;
use std::alloc::{AllocError, Global};

/// The comparison of two registers.
#[derive(Drop)]
pub struct RowDiff {
    /// A header, and a line for each row that only one of them has.
    pub text: Vec<u8>,
    /// Whether there is such a row.
    pub differ: bool,
}

/// Compares the rows of an older register with those of a newer one.
pub fn compare(alloc: Global, old: &Register, new: &Register) -> Result<RowDiff, AllocError>
    ensures text { IfOk result (λ made. IsDiff old.now new.now made.text.items) }
    ensures differ { IfOk result (λ made. IsTrue made.differ ↔ Differ old.now new.now) }
{
    let olds = rows(alloc, old)?;
    let news = rows(alloc, new)?;
    let changes = changes(alloc, &olds, &news)?;
    let text = changes_text(alloc, &changes)?;
    Ok(RowDiff {
        text,
        differ: !changes.is_empty(),
    })
}
