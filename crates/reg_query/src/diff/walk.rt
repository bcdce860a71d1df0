//! The walk along the rows of two registers, side by side.

ghost use Rattle.std.specs.Prelude.{◌≡◌, ◌++◌, ◌∷◌, [], map, IfOk, OnOk};
ghost use Rattle.reg_op.specs.Set.{Ascends};
ghost use Rattle.reg_report.specs.Rows.{row_cmp};
ghost use Rattle.reg_report.specs.Seen.{row_seen};
ghost use Rattle.reg_query.specs.Changes.{signed, AreChanges};
ghost use Rattle.reg_query.specs.ChangesSeen.{change_seen};
ghost use Rattle.reg_query.specs.DiffWalk.{AddsUnlike};

use crate::diff::change::{Sign, SignedRow, is_same, order};
use reg_report::Row;
use std::alloc::{AllocError, Global};
use std::cmp::Ordering;

fn push<'a>(made: &mut Vec<SignedRow<'a>>, sign: Sign, row: &'a Row) -> Result<(), AllocError>
    ensures { OnOk result (map change_seen made.new.items ≡ map change_seen made.old.items ++ signed sign (row_seen row.now) ∷ []) }
{
    made.push(SignedRow { sign, row })?;
    Ok(())
}

fn push_all<'a>(
    made: &mut Vec<SignedRow<'a>>,
    sign: Sign,
    rows: &'a [Row],
) -> Result<(), AllocError>
    ensures { OnOk result (map change_seen made.new.items ≡ map change_seen made.old.items ++ map (λ r. signed sign (row_seen r)) rows.now) }
{
    for row in rows {
        push(made, sign, row)?;
    }
    Ok(())
}

// Appends both, unless they are equal.
fn push_unlike<'a>(
    made: &mut Vec<SignedRow<'a>>,
    gone: &'a Row,
    come: &'a Row,
) -> Result<(), AllocError>
    ensures { OnOk result (AddsUnlike (row_seen gone.now) (row_seen come.now) (map change_seen made.old.items) (map change_seen made.new.items)) }
{
    if is_same(gone, come) {
        return Ok(());
    }
    push(made, Sign::Gone, gone)?;
    push(made, Sign::Come, come)?;
    Ok(())
}

/// The rows that only one list has, ordered by entry, those of the older list first. Each list is ordered by entry.
pub fn changes<'a>(
    alloc: Global,
    old: &'a [Row],
    new: &'a [Row],
) -> Result<Vec<SignedRow<'a>>, AllocError>
    requires old { Ascends row_cmp (map row_seen old.now) }
    requires new { Ascends row_cmp (map row_seen new.now) }
    ensures { IfOk result (λ made. AreChanges (map row_seen old.now) (map row_seen new.now) (map change_seen made.items)) }
{
    let mut made = Vec::new(alloc);
    let mut olds = old;
    let mut news = new;
    while let (Some((gone, older)), Some((come, newer))) = (
        olds.split_first(),
        news.split_first(),
    ) {
        match order(gone, come) {
            Ordering::Less => {
                push(&mut made, Sign::Gone, gone)?;
                olds = older;
            }
            Ordering::Greater => {
                push(&mut made, Sign::Come, come)?;
                news = newer;
            }
            Ordering::Equal => {
                push_unlike(&mut made, gone, come)?;
                olds = older;
                news = newer;
            }
        }
    }
    push_all(&mut made, Sign::Gone, olds)?;
    push_all(&mut made, Sign::Come, news)?;
    Ok(made)
}
