//! The rows that are handed on: those whose keys have one text.

ghost use Rattle.std.specs.Prelude.{◌≡◌, ◌++◌, ◌∷◌, [], map, IfOk, OnOk, if◌then◌else◌};
ghost use Rattle.std.specs.Ordering.{is_lt};
ghost use Rattle.reg_report.specs.Seen.{row_seen};
ghost use Rattle.reg_export.specs.Chosen.{place_cmp, AreChosen};
ghost use Rattle.reg_export.specs.Kept.{row_at, place_of, option_place, lesser, least_with, option_entry};

use crate::notes::{is_contested, notes_of};
use reg_op::OpId;
use reg_report::{KeyText, Row, key_of};
use std::alloc::{AllocError, Global};

/// Rows that are handed on.
#[derive(Drop)]
pub struct Chosen<'a> {
    /// Those whose key has one text, in their order.
    pub rows: Vec<&'a Row>,
    /// The least entry of the least key that has two texts, if there is such a key.
    pub taken: Option<OpId>,
}

// A row with its key.
#[derive(Clone, Copy)]
struct KeyedRow<'a> {
    key: KeyText<'a>,
    row: &'a Row,
}

fn is_less(one: &KeyedRow<'_>, other: &KeyedRow<'_>) -> bool
    ensures { result ≡ is_lt (place_cmp (place_of one.now) (place_of other.now)) }
{
    one.key
        .cmp(&other.key)
        .then(one.row.entry.cmp(&other.row.entry))
        .is_lt()
}

// The lesser of the two.
fn lesser<'a>(least: Option<KeyedRow<'a>>, held: KeyedRow<'a>) -> KeyedRow<'a>
    ensures { place_of result ≡ lesser (option_place least.entry) (place_of held.entry) }
{
    match least {
        Some(one) => { if is_less(&held, &one) { held } else { one } }
        None => held,
    }
}

// The least one, after a row that may be contested.
fn least_with<'a>(
    contested: bool,
    least: Option<KeyedRow<'a>>,
    held: KeyedRow<'a>,
) -> Option<KeyedRow<'a>>
    ensures { option_place result ≡ least_with contested (option_place least.entry) (place_of held.entry) }
{
    if contested {
        return Some(lesser(least, held));
    }
    least
}

// Appends the row, unless it is contested.
fn push_unless<'a>(contested: bool, kept: &mut Vec<&'a Row>, row: &'a Row) -> Result<(), AllocError>
    ensures { OnOk result (map row_at kept.new.items ≡ map row_at kept.old.items ++ (if contested then [] else row_seen row.now ∷ [])) }
{
    if contested {
        return Ok(());
    }
    kept.push(row)?;
    Ok(())
}

fn entry_of(least: Option<KeyedRow<'_>>) -> Option<OpId>
    ensures { result ≡ option_entry (option_place least.entry) }
{
    match least {
        Some(held) => Some(held.row.entry),
        None => None,
    }
}

/// Of these rows, those whose keys have one text, in their order.
pub fn uncontested<'a>(alloc: Global, rows: &'a [Row]) -> Result<Chosen<'a>, AllocError>
    ensures { IfOk result (λ made. AreChosen (map row_seen rows.now) (map row_at made.rows.items) made.taken) }
{
    let notes = notes_of(alloc, rows)?;
    let mut kept = Vec::new(alloc);
    let mut least = None;
    let mut rest = rows;
    while let Some((row, others)) = rest.split_first() {
        let key = key_of(row);
        let contested = is_contested(&notes, &key);
        least = least_with(contested, least, KeyedRow { key, row });
        push_unless(contested, &mut kept, row)?;
        rest = others;
    }
    Ok(Chosen {
        rows: kept,
        taken: entry_of(least),
    })
}
