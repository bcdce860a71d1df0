//! The entries to retire so that some entries are kept.

ghost use Rattle.std.specs.Prelude.{◌≡◌, ◌≢◌, ◌↔◌, ◌⊎◌, List, map, filter, IsTrue, IfOk, OnOk, IfErr, Some};
ghost use Rattle.std.specs.List.Sorted.{IsSorted};
ghost use Rattle.reg_op.specs.Ids.{Id};
ghost use Rattle.reg_op.specs.Rows.{rows};
ghost use Rattle.reg_op.specs.Set.{Ascends};
ghost use Rattle.reg_op.specs.declared.status.Status.TheVariants.{Retired};
ghost use Rattle.reg_report.specs.Keys.{key_bytes};
ghost use Rattle.reg_report.specs.Rows.{row_cmp, HasRow};
ghost use Rattle.reg_report.specs.Seen.{row_seen};
ghost use Rattle.reg_disorder.specs.declared.settling.fault.SettleFault.TheVariants as fault;
ghost use Rattle.reg_disorder.specs.Settling.{IsSettled, IsObjection, IsUnsettled};
ghost use Rattle.reg_disorder.specs.Keeping.{At, Holds, with_row, rival_cmp, is_of_key, Retires, IsOther};

use crate::settling::fault::SettleFault;
use crate::settling::key::keep;
use crate::settling::rival::{Rival, push_rivals, rivals_by_key};
use reg_op::OpId;
use reg_report::{KeyText, Row, find_row, is_live, key_of, rows};
use reg_state::Register;
use std::alloc::Global;
use std::collections::BTreeMap;

/// The entries to retire so that these are kept: for each, in order, the other entries with its key that are not retired,
/// ordered by id, each once.
pub fn to_retire(
    alloc: Global,
    register: &Register,
    keeps: &[OpId],
) -> Result<Vec<OpId>, SettleFault>
    ensures ok { IfOk result (λ ids. IsSettled (rows register.now.ops) keeps.now ids.items) }
    ensures fault { IfErr result (λ f. IsUnsettled (rows register.now.ops) keeps.now f ⊎ (f ≡ fault.Memory)) }
{
    let rows = match rows(alloc, register) {
        Ok(rows) => rows,
        Err(_) => return Err(SettleFault::Memory),
    };
    match settled(alloc, &rows, keeps) {
        Ok(ids) => Ok(ids),
        Err(fault) => Err(fault),
    }
}

fn settled(alloc: Global, rows: &[Row], keeps: &[OpId]) -> Result<Vec<OpId>, SettleFault>
    requires { Ascends row_cmp (map row_seen rows.now) }
    ensures ok { IfOk result (λ ids. IsSettled (map row_seen rows.now) keeps.now ids.items) }
    ensures fault { IfErr result (λ f. IsUnsettled (map row_seen rows.now) keeps.now f ⊎ (f ≡ fault.Memory)) }
{
    let rivals = match rivals_by_key(alloc, rows, keeps) {
        Ok(rivals) => rivals,
        Err(_) => return Err(SettleFault::Memory),
    };
    let mut kept = BTreeMap::new(alloc);
    let mut ids = Vec::new(alloc);
    for entry in keeps {
        let row = match standing_row(rows, *entry) {
            Ok(row) => row,
            Err(fault) => return Err(fault),
        };
        let key = key_of(row);
        if let Err(fault) = keep_row(&mut kept, &rivals, &mut ids, key, row) {
            return Err(fault);
        }
    }
    Ok(ids)
}

// The row of an entry that is not retired.
fn standing_row<'a>(rows: &'a [Row], entry: OpId) -> Result<&'a Row, SettleFault>
    requires { Ascends row_cmp (map row_seen rows.now) }
    ensures ok { IfOk result (λ row. HasRow (map row_seen rows.now) entry (row_seen row.now) × ((row_seen row.now).status ≢ Some Retired)) }
    ensures fault { (before : List Id) → IfErr result (IsObjection (map row_seen rows.now) before entry) }
{
    let Some(row) = find_row(rows, entry) else {
        return Err(SettleFault::UnknownEntry(entry));
    };
    if !is_live(row) {
        return Err(SettleFault::AlreadyRetired(entry));
    }
    Ok(row)
}

// Whether they have the same text.
fn shares_text(one: &Row, other: &Row) -> bool
    ensures { IsTrue result ↔ ((row_seen one.now).definition ≡ (row_seen other.now).definition) }
{
    one.definition.as_bytes() == other.definition.as_bytes()
}

// Keeps a row of the key. The first kept row of a key retires the rivals of the key.
fn keep_row<'a>(
    kept: &mut BTreeMap<KeyText<'a>, &'a Row>,
    rivals: &[Rival],
    ids: &mut Vec<OpId>,
    key: KeyText<'a>,
    row: &'a Row,
) -> Result<(), SettleFault>
    requires { IsSorted rival_cmp rivals.now }
    ensures ids { (at : At) → Holds kept.old at → OnOk result (Retires (at (key_bytes key.entry)) (row_seen row.now) (filter (is_of_key (key_bytes key.entry)) rivals.now) ids.old.items ids.new.items) }
    ensures kept { (at : At) → Holds kept.old at → OnOk result (Holds kept.new (with_row (key_bytes key.entry) (row_seen row.now) at)) }
    ensures fault { (at : At) → Holds kept.old at → IfErr result (λ f. (IsOther (at (key_bytes key.entry)) (row_seen row.now) × (f ≡ fault.KeyTaken row.now.entry)) ⊎ (f ≡ fault.Memory)) }
{
    let before = match keep(kept, key, row) {
        Ok(before) => before,
        Err(_) => return Err(SettleFault::Memory),
    };
    match before {
        Some(other) => {
            if !shares_text(other, row) {
                return Err(SettleFault::KeyTaken(row.entry));
            }
            Ok(())
        }
        None => {
            if let Err(_) = push_rivals(ids, rivals, &key) {
                return Err(SettleFault::Memory);
            }
            Ok(())
        }
    }
}
