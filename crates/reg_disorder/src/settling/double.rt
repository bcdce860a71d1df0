//! Duplicates: entries with one text.

ghost use Rattle.std.specs.Prelude.{◌≡◌, ◌≢◌, ◌↔◌, ◌++◌, ◌∷◌, [], List, map, IsTrue, IfOk, OnOk, Some, if◌then◌else◌};
ghost use Rattle.reg_op.specs.Rows.{Row as OneRow, rows};
ghost use Rattle.reg_op.specs.Set.{Ascends};
ghost use Rattle.reg_op.specs.declared.status.Status.TheVariants.{Retired};
ghost use Rattle.reg_report.specs.Rows.{row_cmp};
ghost use Rattle.reg_report.specs.Seen.{row_seen};
ghost use Rattle.reg_disorder.specs.Doubles.{AreDoubles};
ghost use Rattle.reg_disorder.specs.SettledTexts.{HasText, HasTexts};

use reg_op::OpId;
use reg_report::{Row, is_live, rows};
use reg_state::Register;
use std::alloc::{AllocError, Global};
use std::collections::BTreeSet;

/// The entries to retire so that each text is in one entry: of those that are not retired and have one text, all except
/// the least.
pub fn doubles(alloc: Global, register: &Register) -> Result<Vec<OpId>, AllocError>
    ensures { IfOk result (λ ids. AreDoubles (rows register.now.ops) ids.items) }
{
    let rows = rows(alloc, register)?;
    let ids = doubles_among(alloc, &rows)?;
    Ok(ids)
}

// A row is a double if an earlier row has its text.
fn doubles_among(alloc: Global, rows: &[Row]) -> Result<Vec<OpId>, AllocError>
    requires { Ascends row_cmp (map row_seen rows.now) }
    ensures { IfOk result (λ ids. AreDoubles (map row_seen rows.now) ids.items) }
{
    let mut ids = Vec::new(alloc);
    let mut texts = BTreeSet::new(alloc);
    let mut rest = rows;
    while let Some((row, others)) = rest.split_first() {
        let picked = is_again(&mut texts, row)?;
        push_where(picked, &mut ids, row.entry)?;
        rest = others;
    }
    Ok(ids)
}

// Whether an earlier row has the row's text, where neither is retired. Adds the text of a row that is not retired.
fn is_again<'a>(texts: &mut BTreeSet<&'a [u8]>, row: &'a Row) -> Result<bool, AllocError>
    ensures again { (done : List OneRow) → HasTexts texts.old done → IfOk result (λ again. IsTrue again ↔ (((row_seen row.now).status ≢ Some Retired) × HasText done (row_seen row.now).definition)) }
    ensures texts { (done : List OneRow) → HasTexts texts.old done → OnOk result (HasTexts texts.new (done ++ row_seen row.now ∷ [])) }
{
    if !is_live(row) {
        return Ok(false);
    }
    let added = texts.insert(row.definition.as_bytes())?;
    Ok(!added)
}

// Appends the entry if it is picked.
fn push_where(picked: bool, ids: &mut Vec<OpId>, entry: OpId) -> Result<(), AllocError>
    ensures { OnOk result (ids.new.items ≡ ids.old.items ++ (if picked then entry ∷ [] else [])) }
{
    if picked {
        ids.push(entry)?;
    }
    Ok(())
}
