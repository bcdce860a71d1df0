//! The rows of the entries to which supersessions passed on.

ghost use Rattle.std.specs.Prelude.{◌≡◌, ◌++◌, ◌∷◌, [], map, IfOk};
ghost use Rattle.reg_op.specs.Set.{Ascends};
ghost use Rattle.reg_report.specs.Rows.{row_cmp, HasRow};
ghost use Rattle.reg_report.specs.Seen.{row_seen};
ghost use Rattle.reg_disorder.specs.Rows.{HaveRows};

use reg_disorder::linking::Link;
use reg_report::{Row, find_row};
use std::alloc::{AllocError, Global};

// The row of the link's old entry.
fn old_row<'a>(rows: &'a [Row], link: &Link) -> Result<&'a Row, AllocError>
    requires { Ascends row_cmp (map row_seen rows.now) }
    ensures { IfOk result (λ row. HasRow (map row_seen rows.now) link.now.old (row_seen row.now)) }
{
    match find_row(rows, link.old) {
        Some(row) => Ok(row),
        None => Err(AllocError),
    }
}

/// The row of the old entry of each link, in their order, among rows that are ordered by entry. Links of one entry share its row.
pub fn old_rows<'a>(
    alloc: Global,
    rows: &'a [Row],
    links: &[Link],
) -> Result<Vec<&'a Row>, AllocError>
    requires { Ascends row_cmp (map row_seen rows.now) }
    ensures { IfOk result (λ made. HaveRows (map row_seen rows.now) links.now (map (λ r. row_seen r.now) made.items)) }
{
    let mut made = Vec::new(alloc);
    let mut rest = links;
    while let Some((link, others)) = rest.split_first() {
        let row = old_row(rows, link)?;
        made.push(row)?;
        rest = others;
    }
    Ok(made)
}
