//! Conflicts, side by side.

ghost use Rattle.std.specs.Prelude.{OnOk};
ghost use Rattle.html_page.specs.Pieces.{Appends};
ghost use Rattle.html_page.specs.Templates.{side, pair, conflict_start};
ghost use Rattle.reg_page.specs.Page.{side_of, named};

use crate::described::Described;
use crate::names::read_for_id;
use csv_table::offices::Name;
use html_page::markup::{AFTER_PAIR, AFTER_SIDE, PAIR};
use html_page::{push_compared, push_conflict_start, push_mark, push_side_start};
use reg_report::{Conflict, printed};
use std::alloc::{AllocError, Global};

/// Appends the heading of a key in conflict.
pub fn push_key(page: &mut Vec<u8>, one: &Conflict) -> Result<(), AllocError>
    ensures { OnOk result (Appends page.old.items page.new.items (conflict_start one.now.authority.bytes one.now.code.bytes)) }
{
    push_conflict_start(page, one.authority.as_bytes(), one.code.as_bytes())?;
    Ok(())
}

fn push_side(
    alloc: Global,
    page: &mut Vec<u8>,
    names: &[Name],
    one: &Described,
    other: &Described,
) -> Result<(), AllocError>
    ensures { OnOk result (Appends page.old.items page.new.items (side (named names.now) (side_of one.now other.now))) }
{
    let id = printed(alloc, one.id)?;
    let read = read_for_id(alloc, names, one.id)?;
    push_side_start(page, &id, &read, &one.note)?;
    push_compared(alloc, page, &one.system.text, &other.system.text)?;
    push_mark(page, AFTER_SIDE)?;
    Ok(())
}

/// Appends two entries of a key, side by side.
pub fn push_sides(
    alloc: Global,
    page: &mut Vec<u8>,
    names: &[Name],
    one: &Described,
    other: &Described,
) -> Result<(), AllocError>
    ensures { OnOk result (Appends page.old.items page.new.items (pair (named names.now) (record { first = side_of one.now other.now; second = side_of other.now one.now }))) }
{
    push_mark(page, PAIR)?;
    push_side(alloc, page, names, one, other)?;
    push_side(alloc, page, names, other, one)?;
    push_mark(page, AFTER_PAIR)?;
    Ok(())
}
