//! The superseded entries from which a chain of supersessions leads to a valid one. The search begins at the entries that valid ones
//! supersede, so that it costs what there are supersessions, and not what there are entries.

ghost use Rattle.std.specs.Prelude.{◌≡◌, ◌++◌, map, IfOk, OnOk};
ghost use Rattle.std.specs.List.Sorted.{IsSorted};
ghost use Rattle.reg_report.specs.Seen.{row_seen};
ghost use Rattle.reg_op.specs.Ids.{id_cmp};
ghost use Rattle.reg_disorder.specs.Heirs.{link_cmp, AddsValid, AreValid, AddsFirst, AreFirst, HaveHeirs, Visits};

use crate::link::{OlderLink, links_by, links_of};
use reg_op::{OpId, Status};
use reg_report::{Row, is_among};
use std::alloc::{AllocError, Global};
use std::collections::BTreeSet;

// Appends the entry of a row, if it is valid.
fn push_valid(ids: &mut Vec<OpId>, row: &Row) -> Result<(), AllocError>
    ensures { OnOk result (AddsValid (row_seen row.now) ids.old.items ids.new.items) }
{
    if row.status != Status::Valid {
        return Ok(());
    }
    ids.push(row.entry)?;
    Ok(())
}

/// The valid entries, sorted.
pub fn valid_of(alloc: Global, rows: &[Row]) -> Result<Vec<OpId>, AllocError>
    ensures sorted { IfOk result (λ made. IsSorted id_cmp made.items) }
    ensures valid { IfOk result (λ made. AreValid (map row_seen rows.now) made.items) }
{
    let mut made = Vec::new(alloc);
    for row in rows {
        push_valid(&mut made, row)?;
    }
    made.sort_unstable();
    Ok(made)
}

// Appends the entry that a link supersedes, if the other one is among the valid.
fn push_first(ids: &mut Vec<OpId>, valid: &[OpId], link: &OlderLink) -> Result<(), AllocError>
    requires { IsSorted id_cmp valid.now }
    ensures { OnOk result (AddsFirst valid.now link.now ids.old.items ids.new.items) }
{
    if !is_among(valid, link.newer) {
        return Ok(());
    }
    ids.push(link.old)?;
    Ok(())
}

// The entries that valid ones supersede.
fn first_of(alloc: Global, links: &[OlderLink], valid: &[OpId]) -> Result<Vec<OpId>, AllocError>
    requires { IsSorted id_cmp valid.now }
    ensures { IfOk result (λ made. AreFirst valid.now links.now made.items) }
{
    let mut made = Vec::new(alloc);
    for link in links {
        push_first(&mut made, valid, link)?;
    }
    Ok(made)
}

// Appends the entries that these links supersede.
fn push_old(todo: &mut Vec<OpId>, links: &[OlderLink]) -> Result<(), AllocError>
    ensures { OnOk result (todo.new.items ≡ todo.old.items ++ map (λ x. x.old) links.now) }
{
    for link in links {
        todo.push(link.old)?;
    }
    Ok(())
}

// Puts an entry into the set. If it is new there, what it supersedes is still to do.
fn visit(
    todo: &mut Vec<OpId>,
    found: &mut BTreeSet<OpId>,
    links: &[OlderLink],
    id: OpId,
) -> Result<(), AllocError>
    requires { IsSorted link_cmp links.now }
    ensures { OnOk result (Visits links.now id todo.old.items found.old todo.new.items found.new) }
{
    let is_new = found.insert(id)?;
    if !is_new {
        return Ok(());
    }
    push_old(todo, links_by(links, id))?;
    Ok(())
}

/// The entries from which a chain of at least one supersession leads to a valid one.
pub fn with_heirs(alloc: Global, rows: &[Row], valid: &[OpId]) -> Result<BTreeSet<OpId>, AllocError>
    requires sorted { IsSorted id_cmp valid.now }
    requires valid { AreValid (map row_seen rows.now) valid.now }
    ensures { IfOk result (λ found. HaveHeirs (map row_seen rows.now) found) }
{
    let links = links_of(alloc, rows)?;
    let mut todo = first_of(alloc, &links, valid)?;
    let mut found = BTreeSet::new(alloc);
    while let Some(id) = todo.pop() {
        visit(&mut todo, &mut found, &links, id)?;
    }
    Ok(found)
}
