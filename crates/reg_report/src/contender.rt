//! Entries that are not retired, ordered by key: those that may be in conflict.

ghost use Rattle.std.specs.Prelude.{◌≡◌, ◌++◌, [], ◌∷◌, map, IfOk, OnOk};
ghost use Rattle.std.specs.List.Sorted.{IsSorted};
ghost use Rattle.reg_report.specs.Contenders.{contender_cmp, has_same_key, has_other_text, AreContenders, Adds};
ghost use Rattle.reg_report.specs.Seen.{row_seen};

use crate::row::Row;
use reg_op::{Definition, OpId, Status};
use std::alloc::{AllocError, Global};
use std::cmp::Ordering;
use wkt_crs::SharedKey;

/// An entry that is not retired.
#[derive(Drop)]
pub struct Contender {
    pub key: SharedKey,
    pub definition: Definition,
    pub entry: OpId,
}

// By the bytes of the key's authority, and then by those of its code.
fn compare(left: &Contender, right: &Contender) -> Ordering
    ensures { result ≡ contender_cmp left.now right.now }
{
    let (left, right) = (left.key.get(), right.key.get());
    left.authority
        .as_bytes()
        .cmp(right.authority.as_bytes())
        .then(left.code.as_bytes().cmp(right.code.as_bytes()))
}

/// Whether they have the same key.
pub fn has_same_key(left: &Contender, right: &Contender) -> bool
    ensures { result ≡ has_same_key left.now right.now }
{
    compare(left, right).is_eq()
}

/// Whether their definitions have different texts.
pub fn has_other_text(left: &Contender, right: &Contender) -> bool
    ensures { result ≡ has_other_text left.now right.now }
{
    left.definition.as_bytes() != right.definition.as_bytes()
}

// Appends an entry, unless it is retired.
fn push_contender(
    alloc: Global,
    contenders: &mut Vec<Contender>,
    row: &Row,
) -> Result<(), AllocError>
    ensures { OnOk result (Adds (row_seen row.now) contenders.old.items contenders.new.items) }
{
    if row.status == Status::Retired {
        return Ok(());
    }
    let key = row.definition.shared_key(alloc)?;
    let definition = row.definition.try_clone(alloc)?;
    contenders.push(Contender {
        key,
        definition,
        entry: row.entry,
    })?;
    Ok(())
}

/// The entries that are not retired, by their keys.
pub fn contenders_of(alloc: Global, rows: &[Row]) -> Result<Vec<Contender>, AllocError>
    ensures sorted { IfOk result (λ made. IsSorted contender_cmp made.items) }
    ensures contenders { IfOk result (λ made. AreContenders (map row_seen rows.now) made.items) }
{
    let mut made = Vec::new(alloc);
    for row in rows {
        push_contender(alloc, &mut made, row)?;
    }
    made.sort_unstable_by(|left, right| compare(left, right));
    Ok(made)
}
