//! What is not in order, listed and counted.

ghost use Rattle.std.specs.Prelude.{◌≡◌, List, map, IfOk};
ghost use Rattle.reg_op.specs.Rows.{Row as OneRow};
ghost use Rattle.reg_report.specs.Seen.{row_seen};
ghost use Rattle.reg_disorder.specs.Disorders.{AreAmiss, IsAmiss, CountsAmiss, how_many};
ghost use Rattle.reg_disorder.specs.Lists.{listed_seen, AreOf};

use crate::dangling::dangling;
use crate::disorder::Disorder;
use crate::double::duplicates;
use crate::listed::{ListedEntry, count_keys, in_order};
use crate::withdrawn::withdrawn;
use reg_report::Row;
use std::alloc::{AllocError, Global};

fn listed_of(alloc: Global, rows: &[Row], way: Disorder) -> Result<Vec<ListedEntry>, AllocError>
    ensures { IfOk result (λ made. AreOf (IsAmiss way (map row_seen rows.now)) (map row_seen rows.now) (map listed_seen made.items)) }
{
    match way {
        Disorder::Duplicates => duplicates(alloc, rows),
        Disorder::Dangling => dangling(alloc, rows),
        Disorder::Withdrawn => withdrawn(alloc, rows),
    }
}

/// The entries of these rows that are not in order in this way, by key and then by id.
pub fn amiss(alloc: Global, rows: &[Row], way: Disorder) -> Result<Vec<ListedEntry>, AllocError>
    ensures { IfOk result (λ made. AreAmiss way (map row_seen rows.now) (map listed_seen made.items)) }
{
    let listed = listed_of(alloc, rows, way)?;
    Ok(in_order(listed))
}

/// How many keys have equal texts, how many superseded entries have no valid heir, or how many keys have only retired entries.
pub fn count_amiss(alloc: Global, rows: &[Row], way: Disorder) -> Result<usize, AllocError>
    ensures { IfOk result (CountsAmiss way (map row_seen rows.now)) }
{
    let listed = amiss(alloc, rows, way)?;
    Ok(how_many(&listed, way))
}

// Of dangling entries they themselves are counted, otherwise their keys.
fn how_many(listed: &[ListedEntry], way: Disorder) -> usize
    ensures { (rs : List OneRow) → AreAmiss way rs (map listed_seen listed.now) → result ≡ how_many way (map listed_seen listed.now) }
{
    match way {
        Disorder::Duplicates => count_keys(listed),
        Disorder::Dangling => listed.len(),
        Disorder::Withdrawn => count_keys(listed),
    }
}
