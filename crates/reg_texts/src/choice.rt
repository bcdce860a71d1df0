//! The rows that are compared.

ghost use Rattle.std.specs.Prelude.{◌≡◌, ◌++◌, ◌↔◌, List, map, IsTrue, IfOk, OnOk};
ghost use Rattle.reg_op.specs.Rows.{Row as OneRow};
ghost use Rattle.reg_report.specs.Seen.{row_seen};
ghost use Rattle.reg_keys.specs.Named.{Answers};
ghost use Rattle.reg_texts.specs.Gathered.{Each};
ghost use Rattle.reg_texts.specs.Compare.{IsChosen, seen_rows};
ghost use Rattle.reg_texts.specs.Given.{IsRival};

use crate::key::is_same_key;
use reg_keys::has_key;
use reg_report::{Row, is_live, key_in, key_of};
use std::alloc::{AllocError, Global};
use wkt_crs::Definition;

/// Which rows are compared.
pub trait RowFilter {
    ghost use Rattle.std.specs.Prelude.{◌↔◌, IsTrue};
    ghost use Rattle.reg_op.specs.Rows.{Row as OneRow};
    ghost use Rattle.reg_report.specs.Seen.{row_seen};

    /// The row is one of them.
    ghost wants: { Self → OneRow → Type 0 };

    fn takes(&self, row: &Row) -> bool
        ensures { IsTrue result ↔ wants self.now (row_seen row.now) };
}

/// The rows of a key, given as AUTHORITY:CODE, whose entries are not retired.
#[derive(Drop)]
pub struct OfWord<'a> {
    pub key: &'a [u8],
}

impl RowFilter for OfWord<'_> {
    ghost use Rattle.reg_keys.specs.Named.{Answers};

    ghost wants = { λ c. λ r. Answers c.key.now r };

    fn takes(&self, row: &Row) -> bool {
        answers(row, self.key)
    }
}

fn answers(row: &Row, key: &[u8]) -> bool
    ensures { IsTrue result ↔ Answers key.now (row_seen row.now) }
{
    has_key(row, key) && is_live(row)
}

/// The rows with the key of a definition whose entries are not retired.
#[derive(Drop)]
pub struct OfText<'a> {
    pub definition: &'a Definition,
}

impl RowFilter for OfText<'_> {
    ghost use Rattle.reg_texts.specs.Given.{IsRival};

    ghost wants = { λ c. λ r. IsRival c.definition.now r };

    fn takes(&self, row: &Row) -> bool {
        is_rival(row, self.definition)
    }
}

fn is_rival(row: &Row, definition: &Definition) -> bool
    ensures { IsTrue result ↔ IsRival definition.now (row_seen row.now) }
{
    is_same_key(&key_in(definition), &key_of(row)) && is_live(row)
}

/// The rows that are compared, in order.
pub fn chosen<'a, C: RowFilter>(
    alloc: Global,
    rows: &'a [Row],
    choice: &C,
) -> Result<Vec<&'a Row>, AllocError>
    ensures { IfOk result (λ found. Each (IsChosen (C.wants choice.now)) (map row_seen rows.now) (seen_rows found.items)) }
{
    let mut found = Vec::new(alloc);
    let mut rest = rows;
    while let Some((row, others)) = rest.split_first() {
        push_chosen(&mut found, choice, row)?;
        rest = others;
    }
    Ok(found)
}

fn push_chosen<'a, C: RowFilter>(
    found: &mut Vec<&'a Row>,
    choice: &C,
    row: &'a Row,
) -> Result<(), AllocError>
    ensures { OnOk result ((mine : List OneRow) × IsChosen (C.wants choice.now) (row_seen row.now) mine × (seen_rows found.new.items ≡ seen_rows found.old.items ++ mine)) }
{
    if !choice.takes(row) {
        return Ok(());
    }
    found.push(row)?;
    Ok(())
}
