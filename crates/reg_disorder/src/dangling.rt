//! Superseded entries from which no chain of supersessions leads to a valid one.

ghost use Rattle.std.specs.Prelude.{◌↔◌, List, IsTrue, map, IfOk};
ghost use Rattle.std.specs.List.Sorted.{IsSorted};
ghost use Rattle.reg_op.specs.Ids.{id_cmp};
ghost use Rattle.reg_op.specs.Rows.{Row as OneRow};
ghost use Rattle.reg_report.specs.Seen.{row_seen};
ghost use Rattle.reg_disorder.specs.Disorders.{IsDangling};
ghost use Rattle.reg_disorder.specs.Heirs.{AreValid, HaveHeirs};
ghost use Rattle.reg_disorder.specs.Lists.{listed_seen, AreOf};

use crate::heir::{valid_of, with_heirs};
use crate::listed::{ListedEntry, push_where};
use crate::standing::is_superseded;
use reg_op::OpId;
use reg_report::{Row, is_among};
use std::alloc::{AllocError, Global};
use std::collections::BTreeSet;

// Whether the entry of a row is superseded, and none of those that are valid or have an heir.
fn is_dangling(valid: &[OpId], found: &BTreeSet<OpId>, row: &Row) -> bool
    requires { IsSorted id_cmp valid.now }
    ensures { (rs : List OneRow) → AreValid rs valid.now → HaveHeirs rs found.now → IsTrue result ↔ IsDangling rs (row_seen row.now) }
{
    if !is_superseded(row) {
        return false;
    }
    if found.contains(&row.entry) {
        return false;
    }
    !is_among(valid, row.entry)
}

/// The superseded entries from which no chain of supersessions leads to a valid one.
pub fn dangling(alloc: Global, rows: &[Row]) -> Result<Vec<ListedEntry>, AllocError>
    ensures { IfOk result (λ made. AreOf (IsDangling (map row_seen rows.now)) (map row_seen rows.now) (map listed_seen made.items)) }
{
    let valid = valid_of(alloc, rows)?;
    let found = with_heirs(alloc, rows, &valid)?;
    let mut made = Vec::new(alloc);
    for row in rows {
        let wanted = is_dangling(&valid, &found, row);
        push_where(alloc, wanted, &mut made, row)?;
    }
    Ok(made)
}
