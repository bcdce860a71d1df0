//! Texts with their header lines, and what differs between two of them.

ghost use Rattle.std.specs.Prelude.{◌≡◌, ◌≢◌, ◌++◌, ◌∷◌, [], true, false, ℕ, List, IfOk, OnOk};
ghost use Rattle.crs_value.specs.declared.crs.Crs.{Crs};
ghost use Rattle.wkt_crs.specs.Definition.{IsCrsOf};
ghost use Rattle.wkt_crs.specs.Spells.{pretty};
ghost use Rattle.reg_report.specs.Seen.{row_seen};
ghost use Rattle.reg_texts.specs.Compare.{IsVersionOf, IsPair, IsHeadOf};

use crate::key::push_key;
use reg_report::{Row, key_of, status_word};
use std::alloc::{AllocError, Global};
use wkt_compare::unified;
use wkt_crs::{Definition, write_pretty};

/// An indented text, and the line that names it in a diff.
#[derive(Drop)]
pub struct Version {
    pub head: Vec<u8>,
    pub text: Vec<u8>,
}

/// The text of an entry, named by its key, its id and its status.
pub fn version_of(alloc: Global, row: &Row) -> Result<Version, AllocError>
    ensures { IfOk result (IsVersionOf (row_seen row.now)) }
{
    let head = head_of(alloc, row)?;
    let text = indented(alloc, &row.definition)?;
    Ok(Version { head, text })
}

/// The indented text of a definition.
pub fn indented(alloc: Global, definition: &Definition) -> Result<Vec<u8>, AllocError>
    ensures { IfOk result (λ text. (crs : Crs) × IsCrsOf crs definition.now × (text.items ≡ pretty crs)) }
{
    let crs = definition.crs(alloc)?;
    let text = write_pretty(alloc, &crs)?;
    Ok(text)
}

/// The key, the id and the status of an entry.
pub fn head_of(alloc: Global, row: &Row) -> Result<Vec<u8>, AllocError>
    ensures { IfOk result (λ head. IsHeadOf (row_seen row.now) head.items) }
{
    let mut head = Vec::new(alloc);
    push_key(&mut head, &key_of(row))?;
    head.push(b' ')?;
    row.entry.write_to(&mut head)?;
    head.push(b' ')?;
    head.extend_from_slice(status_word(row))?;
    Ok(head)
}

/// Appends what differs between two texts, as a unified diff under their heads; nothing if they are equal.
pub fn push_pair(
    alloc: Global,
    text: &mut Vec<u8>,
    one: &Version,
    other: &Version,
) -> Result<(), AllocError>
    ensures { OnOk result ((pair : List ℕ) × IsPair one.now other.now pair × (text.new.items ≡ text.old.items ++ pair)) }
{
    let hunks = unified(alloc, &one.text, &other.text)?;
    if is_none(&hunks) {
        return Ok(());
    }
    push_head(text, b"--- ", &one.head)?;
    push_head(text, b"+++ ", &other.head)?;
    text.extend_from_slice(&hunks)?;
    Ok(())
}

/// Whether the list has no item.
pub fn is_none<T>(items: &[T]) -> bool
    ensures none { result ≡ true → items.now ≡ [] }
    ensures some { result ≡ false → items.now ≢ [] }
{
    items.is_empty()
}

/// Appends a line: the sign and the head.
pub fn push_head(text: &mut Vec<u8>, sign: &[u8], head: &[u8]) -> Result<(), AllocError>
    ensures { OnOk result (text.new.items ≡ text.old.items ++ (sign.now ++ head.now ++ 10 ∷ [])) }
{
    text.extend_from_slice(sign)?;
    text.extend_from_slice(head)?;
    text.push(b'\n')?;
    Ok(())
}
