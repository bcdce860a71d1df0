//! Texts that stand twice: entries that are not retired and have the text of another one.

ghost use Rattle.std.specs.Prelude.{◌↔◌, List, IsTrue, map, IfOk, OnOk};
ghost use Rattle.reg_op.specs.Rows.{Row as OneRow};
ghost use Rattle.reg_report.specs.Seen.{row_seen};
ghost use Rattle.reg_disorder.specs.Disorders.{IsDuplicate};
ghost use Rattle.reg_disorder.specs.Lists.{listed_seen, AreOf};
ghost use Rattle.reg_disorder.specs.Texts.{PutsText, PutsRow, HasSeveral};

use crate::listed::{ListedEntry, push_where};
use crate::standing::is_retired;
use reg_report::Row;
use std::alloc::{AllocError, Global};
use std::collections::BTreeSet;

// Puts a text among those that were seen and, if it was, among those that were seen several times.
fn put_text<'a>(
    seen: &mut BTreeSet<&'a [u8]>,
    several: &mut BTreeSet<&'a [u8]>,
    text: &'a [u8],
) -> Result<(), AllocError>
    ensures { OnOk result (PutsText text.now seen.old several.old seen.new several.new) }
{
    let is_new = seen.insert(text)?;
    if is_new {
        return Ok(());
    }
    several.insert(text)?;
    Ok(())
}

// The same for the text of a row, unless its entry is retired.
fn put_row<'a>(
    seen: &mut BTreeSet<&'a [u8]>,
    several: &mut BTreeSet<&'a [u8]>,
    row: &'a Row,
) -> Result<(), AllocError>
    ensures { OnOk result (PutsRow (row_seen row.now) seen.old several.old seen.new several.new) }
{
    if is_retired(row) {
        return Ok(());
    }
    put_text(seen, several, row.definition.as_bytes())?;
    Ok(())
}

// The texts of several entries that are not retired.
fn repeated<'a>(alloc: Global, rows: &'a [Row]) -> Result<BTreeSet<&'a [u8]>, AllocError>
    ensures { IfOk result (λ several. HasSeveral (map row_seen rows.now) several) }
{
    let mut seen = BTreeSet::new(alloc);
    let mut several = BTreeSet::new(alloc);
    for row in rows {
        put_row(&mut seen, &mut several, row)?;
    }
    Ok(several)
}

// Whether the entry of a row is not retired, and its text is one of these.
fn is_repeated<'a>(several: &BTreeSet<&'a [u8]>, row: &'a Row) -> bool
    ensures { (rs : List OneRow) → HasSeveral rs several.now → IsTrue result ↔ IsDuplicate rs (row_seen row.now) }
{
    if is_retired(row) {
        return false;
    }
    several.contains(row.definition.as_bytes())
}

/// The entries that are not retired and have the text of another one.
pub fn duplicates(alloc: Global, rows: &[Row]) -> Result<Vec<ListedEntry>, AllocError>
    ensures { IfOk result (λ made. AreOf (IsDuplicate (map row_seen rows.now)) (map row_seen rows.now) (map listed_seen made.items)) }
{
    let several = repeated(alloc, rows)?;
    let mut made = Vec::new(alloc);
    for row in rows {
        let wanted = is_repeated(&several, row);
        push_where(alloc, wanted, &mut made, row)?;
    }
    Ok(made)
}
