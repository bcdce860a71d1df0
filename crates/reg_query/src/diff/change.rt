//! A row that only one of two registers has, and equality of rows.

ghost use Rattle.std.specs.Prelude.{◌≡◌, ◌↔◌, IsTrue};
ghost use Rattle.reg_report.specs.Rows.{row_cmp};
ghost use Rattle.reg_report.specs.Seen.{row_seen};
ghost use Rattle.reg_query.specs.Changes.{sign_text};

use reg_op::OpId;
use reg_report::Row;
use std::cmp::Ordering;
use wkt_crs::Definition;

/// The register that has the row.
#[derive(Clone, Copy, Debug, PartialEq, Eq)]
pub enum Sign {
    /// The older one.
    Gone,
    /// The newer one.
    Come,
}

/// A row that only one of two registers has.
#[derive(Drop)]
pub struct SignedRow<'a> {
    pub sign: Sign,
    pub row: &'a Row,
}

/// The text of a sign.
pub fn sign_text(sign: &Sign) -> &[u8]
    ensures { result.now ≡ sign_text sign.now }
{
    match sign {
        Sign::Gone => b"-",
        Sign::Come => b"+",
    }
}

/// The order of their entries.
pub fn order(left: &Row, right: &Row) -> Ordering
    ensures { result ≡ row_cmp (row_seen left.now) (row_seen right.now) }
{
    left.entry.cmp(&right.entry)
}

fn is_same_id(left: &OpId, right: &OpId) -> bool
    ensures { IsTrue result ↔ (left.now ≡ right.now) }
{
    left.is_same(right)
}

fn are_same_ids(left: &[OpId], right: &[OpId]) -> bool
    ensures { IsTrue result ↔ (left.now ≡ right.now) }
{
    left.cmp(right).is_eq()
}

fn is_same_text(left: &Definition, right: &Definition) -> bool
    ensures { IsTrue result ↔ (left.now ≡ right.now) }
{
    left.as_bytes() == right.as_bytes()
}

// Whether they have the same entry and the same text.
fn enter_the_same(left: &Row, right: &Row) -> bool
    ensures { IsTrue result ↔ ((left.now.entry ≡ right.now.entry) × (left.now.definition ≡ right.now.definition)) }
{
    is_same_id(&left.entry, &right.entry) && is_same_text(&left.definition, &right.definition)
}

// Whether they have the same status and the same newer entries.
fn stand_the_same(left: &Row, right: &Row) -> bool
    ensures { IsTrue result ↔ ((left.now.status ≡ right.now.status) × (left.now.newer.items ≡ right.now.newer.items)) }
{
    left.status == right.status && are_same_ids(&left.newer, &right.newer)
}

/// Whether the rows are equal: entry, text, status and newer entries.
pub fn is_same(left: &Row, right: &Row) -> bool
    ensures { IsTrue result ↔ (row_seen left.now ≡ row_seen right.now) }
{
    enter_the_same(left, right) && stand_the_same(left, right)
}
