//! Entries that are not retired in a register, and are retired elsewhere.

ghost use Rattle.std.specs.Prelude.{◌≡◌, ◌||◌, map, filter, IfOk, OnOk};
ghost use Rattle.std.specs.BTreeSet.{contains};
ghost use Rattle.std.specs.List.{list_any};
ghost use Rattle.reg_op.specs.Ids.{Id, id_cmp, is_same};
ghost use Rattle.reg_op.specs.Rows.{rows};
ghost use Rattle.reg_report.specs.Seen.{row_seen};
ghost use Rattle.reg_news.specs.Revived.{HasIds, is_revived};

use reg_op::{OpId, Status};
use reg_report::{Row, rows};
use reg_state::Register;
use std::alloc::{AllocError, Global};
use std::collections::BTreeSet;

/// The rows of entries that are not retired in a register, and are retired elsewhere, by id. Where only some operations came from there,
/// what their offices had said of such an entry may not be among them: a retirement makes it redundant.
#[derive(Drop)]
pub struct Revived {
    pub rows: Vec<Row>,
}

fn put_id(known: &mut BTreeSet<OpId>, id: OpId) -> Result<(), AllocError>
    ensures { OnOk result ((i : Id) → contains id_cmp known.new i ≡ (is_same id i || contains id_cmp known.old i)) }
{
    known.insert(id)?;
    Ok(())
}

fn known_ids(alloc: Global, ids: &[OpId]) -> Result<BTreeSet<OpId>, AllocError>
    ensures { IfOk result (HasIds ids.now) }
{
    let mut known = BTreeSet::new(alloc);
    for id in ids {
        put_id(&mut known, *id)?;
    }
    Ok(known)
}

// Whether the entry is not retired, and is one of these.
fn is_revived(known: &BTreeSet<OpId>, row: &Row) -> bool
    ensures { result ≡ is_revived (contains id_cmp known.now) (row_seen row.now) }
{
    row.status != Status::Retired && known.contains(&row.entry)
}

fn keep_revived(rows: &mut Vec<Row>, known: &BTreeSet<OpId>)
    ensures { rows.new.items ≡ filter (λ r. is_revived (contains id_cmp known.now) (row_seen r)) rows.old.items }
{
    rows.retain(|row| is_revived(known, row));
}

/// Of a register, the entries that are not retired, and are among these ids.
pub fn revived_in(
    alloc: Global,
    register: &Register,
    retired: &[OpId],
) -> Result<Revived, AllocError>
    ensures { IfOk result (λ r. map row_seen r.rows.items ≡ filter (is_revived (λ (i : Id). list_any (is_same i) retired.now)) (rows register.now.ops)) }
{
    let known = known_ids(alloc, retired)?;
    let mut rows = rows(alloc, register)?;
    keep_revived(&mut rows, &known);
    Ok(Revived { rows })
}
