//! The rows that may be retired so that others of their keys are kept.

ghost use Rattle.std.specs.Prelude.{◌≡◌, ◌++◌, map, filter, not, IfOk, OnOk};
ghost use Rattle.std.specs.List.Sorted.{IsSorted, IsPermutation};
ghost use Rattle.std.specs.Ordering.{is_lt};
ghost use Rattle.reg_op.specs.Ids.{id_cmp};
ghost use Rattle.reg_report.specs.Conflicts.{key_cmp};
ghost use Rattle.reg_report.specs.Keys.{key_bytes};
ghost use Rattle.reg_report.specs.Seen.{row_seen};
ghost use Rattle.reg_disorder.specs.Keeping.{entry_of, rival_cmp, is_of_key, AddsRival, AreRivals, AreRivalsByKey};

use reg_op::OpId;
use reg_report::{KeyText, Row, is_among, is_live, key_of};
use std::alloc::{AllocError, Global};

/// A row whose entry is neither retired nor kept.
#[derive(Clone, Copy)]
pub struct Rival<'a> {
    pub key: KeyText<'a>,
    pub row: &'a Row,
}

// Appends the row, unless its entry is retired or kept.
fn push_rival<'a>(
    rivals: &mut Vec<Rival<'a>>,
    keeps: &[OpId],
    row: &'a Row,
) -> Result<(), AllocError>
    requires { IsSorted id_cmp keeps.now }
    ensures { OnOk result (AddsRival keeps.now (row_seen row.now) rivals.old.items rivals.new.items) }
{
    if !is_live(row) {
        return Ok(());
    }
    if is_among(keeps, row.entry) {
        return Ok(());
    }
    let key = key_of(row);
    rivals.push(Rival { key, row })?;
    Ok(())
}

fn rivals_of<'a>(
    alloc: Global,
    rows: &'a [Row],
    keeps: &[OpId],
) -> Result<Vec<Rival<'a>>, AllocError>
    requires { IsSorted id_cmp keeps.now }
    ensures { IfOk result (λ made. AreRivals keeps.now (map row_seen rows.now) made.items) }
{
    let mut made = Vec::new(alloc);
    let mut rest = rows;
    while let Some((row, others)) = rest.split_first() {
        push_rival(&mut made, keeps, row)?;
        rest = others;
    }
    Ok(made)
}

fn sorted(alloc: Global, ids: &[OpId]) -> Result<Vec<OpId>, AllocError>
    ensures permutation { IfOk result (λ made. IsPermutation ids.now made.items) }
    ensures sorted { IfOk result (λ made. IsSorted id_cmp made.items) }
{
    let mut made = Vec::from_slice(alloc, ids)?;
    made.sort_unstable();
    Ok(made)
}

/// The rows whose entries are neither retired nor kept, sorted by key. Those of one key stay in order.
pub fn rivals_by_key<'a>(
    alloc: Global,
    rows: &'a [Row],
    keeps: &[OpId],
) -> Result<Vec<Rival<'a>>, AllocError>
    ensures { IfOk result (λ made. AreRivalsByKey keeps.now (map row_seen rows.now) made.items) }
{
    let keeps = sorted(alloc, keeps)?;
    let mut made = rivals_of(alloc, rows, &keeps)?;
    made.sort_by_key(|rival| rival.key)?;
    Ok(made)
}

fn is_below(rival: &Rival, key: &KeyText) -> bool
    ensures { result ≡ is_lt (key_cmp (key_bytes rival.now.key) (key_bytes key.now)) }
{
    rival.key.cmp(key).is_lt()
}

fn is_up_to(rival: &Rival, key: &KeyText) -> bool
    ensures { result ≡ not (is_lt (key_cmp (key_bytes key.now) (key_bytes rival.now.key))) }
{
    !key.cmp(&rival.key).is_lt()
}

// The rivals of one key.
fn of_key<'a, 'b>(rivals: &'b [Rival<'a>], key: &KeyText) -> &'b [Rival<'a>]
    requires { IsSorted rival_cmp rivals.now }
    ensures { result.now ≡ filter (is_of_key (key_bytes key.now)) rivals.now }
{
    let low = rivals.partition_point(|rival| is_below(rival, key));
    let rest = &rivals[low..];
    let count = rest.partition_point(|rival| is_up_to(rival, key));
    &rest[..count]
}

fn push_entries(ids: &mut Vec<OpId>, rivals: &[Rival]) -> Result<(), AllocError>
    ensures { OnOk result (ids.new.items ≡ ids.old.items ++ map entry_of rivals.now) }
{
    for rival in rivals {
        ids.push(rival.row.entry)?;
    }
    Ok(())
}

/// Appends the entries of the rivals of a key.
pub fn push_rivals(ids: &mut Vec<OpId>, rivals: &[Rival], key: &KeyText) -> Result<(), AllocError>
    requires { IsSorted rival_cmp rivals.now }
    ensures { OnOk result (ids.new.items ≡ ids.old.items ++ map entry_of (filter (is_of_key (key_bytes key.now)) rivals.now)) }
{
    push_entries(ids, of_key(rivals, key))?;
    Ok(())
}
