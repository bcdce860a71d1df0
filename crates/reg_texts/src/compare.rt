//! What differs between the texts of entries.

ghost use Rattle.std.specs.Prelude.{◌≡◌, ◌++◌, ℕ, List, IfOk, IfErr, OnOk};
ghost use Rattle.reg_op.specs.Rows.{Row as OneRow};
ghost use Rattle.reg_report.specs.Seen.{row_seen};
ghost use Rattle.reg_texts.specs.Gathered.{Each};
ghost use Rattle.reg_texts.specs.Compare.{IsCompared, IsHeading, IsUncompared, IsKeyCompared, IsPairOf, IsVersionOf, seen_rows};

use crate::choice::{OfWord, chosen};
use crate::version::{Version, head_of, push_pair, version_of};
use reg_op::OpId;
use reg_report::{Row, find_row, rows};
use reg_state::Register;
use std::alloc::{AllocError, Global};

/// Why two entries are not compared.
#[derive(Clone, Copy, Debug, PartialEq, Eq)]
pub enum Uncompared {
    /// The register has no such entry.
    UnknownEntry(OpId),
    Memory,
}

/// What differs between the texts of two entries, as a unified diff.
pub fn compared_text(
    alloc: Global,
    register: &Register,
    one: OpId,
    other: OpId,
) -> Result<Vec<u8>, Uncompared>
    ensures ok { IfOk result (λ text. IsCompared one other register.now text.items) }
    ensures fault { IfErr result (IsUncompared one other register.now) }
{
    let Ok(rows) = rows(alloc, register) else {
        return Err(Uncompared::Memory);
    };
    let Some(first) = find_row(&rows, one) else {
        return Err(Uncompared::UnknownEntry(one));
    };
    let Some(second) = find_row(&rows, other) else {
        return Err(Uncompared::UnknownEntry(other));
    };
    match pair_text(alloc, first, second) {
        Ok(text) => Ok(text),
        Err(_) => Err(Uncompared::Memory),
    }
}

/// The key, the id and the status of an entry, as in the head of a diff.
pub fn heading(alloc: Global, register: &Register, entry: OpId) -> Result<Vec<u8>, Uncompared>
    ensures ok { IfOk result (λ text. IsHeading entry register.now text.items) }
    ensures fault { IfErr result (IsUncompared entry entry register.now) }
{
    let Ok(rows) = rows(alloc, register) else {
        return Err(Uncompared::Memory);
    };
    let Some(row) = find_row(&rows, entry) else {
        return Err(Uncompared::UnknownEntry(entry));
    };
    match head_of(alloc, row) {
        Ok(text) => Ok(text),
        Err(_) => Err(Uncompared::Memory),
    }
}

fn pair_text(alloc: Global, one: &Row, other: &Row) -> Result<Vec<u8>, AllocError>
    ensures { IfOk result (λ text. IsPairOf (row_seen one.now) (row_seen other.now) text.items) }
{
    let first = version_of(alloc, one)?;
    let second = version_of(alloc, other)?;
    let mut text = Vec::new(alloc);
    push_pair(alloc, &mut text, &first, &second)?;
    Ok(text)
}

/// Of the entries of a key that are not retired, what differs between the text of the one with the least id and those of the
/// others, by id. None if there is no such entry.
pub fn compared_key(
    alloc: Global,
    register: &Register,
    key: &[u8],
) -> Result<Option<Vec<u8>>, AllocError>
    ensures { IfOk result (IsKeyCompared key.now register.now) }
{
    let rows = rows(alloc, register)?;
    let found = chosen(alloc, &rows, &OfWord { key })?;
    let Some((first, others)) = found.split_first() else {
        return Ok(None);
    };
    let text = texts_against(alloc, first, others)?;
    Ok(Some(text))
}

// What differs between the text of the first and that of each of the others, one after another.
fn texts_against(alloc: Global, first: &Row, others: &[&Row]) -> Result<Vec<u8>, AllocError>
    ensures { IfOk result (λ text. Each (IsPairOf (row_seen first.now)) (seen_rows others.now) text.items) }
{
    let first = version_of(alloc, first)?;
    let mut text = Vec::new(alloc);
    for other in others {
        push_against(alloc, &mut text, &first, other)?;
    }
    Ok(text)
}

// Appends what differs between the text and that of the entry.
fn push_against(
    alloc: Global,
    text: &mut Vec<u8>,
    first: &Version,
    other: &Row,
) -> Result<(), AllocError>
    ensures { (one : OneRow) → IsVersionOf one first.now → OnOk result ((pair : List ℕ) × IsPairOf one (row_seen other.now) pair × (text.new.items ≡ text.old.items ++ pair)) }
{
    let second = version_of(alloc, other)?;
    push_pair(alloc, text, first, &second)?;
    Ok(())
}
