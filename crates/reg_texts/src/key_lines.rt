//! The sheet of keys: a row for each key, for spreadsheets and databases.

ghost use Rattle.std.specs.Prelude.{List, IfOk, map};
ghost use Rattle.reg_op.specs.Set.{Ascends};
ghost use Rattle.reg_report.specs.Seen.{row_seen};
ghost use Rattle.reg_report.specs.Rows.{row_cmp};
ghost use Rattle.reg_texts.specs.Said.{Said, said};
ghost use Rattle.reg_texts.specs.Gathered.{Each, AreOfRow};
ghost use Rattle.reg_texts.specs.Texts.{IsInOrder};
ghost use Rattle.reg_texts.specs.Compare.{seen_rows};
ghost use Rattle.reg_texts.specs.KeySheet.{AreLinesOf, IsKeySheet};

use crate::gathering::sayings_about;
use crate::key_fields::{header_text, push_line};
use crate::listing::run_len;
use crate::saying::Saying;
use crate::texts::in_order;
use reg_report::{Row, rows};
use reg_state::Register;
use std::alloc::{AllocError, Global};

// A line for each text with a statement, in order.
fn lines_of(alloc: Global, sayings: &[Saying]) -> Result<Vec<u8>, AllocError>
    ensures { IfOk result (λ text. AreLinesOf (map said sayings.now) text.items) }
{
    let mut text = Vec::new(alloc);
    let mut at = 0;
    while let Some(first) = sayings.get(at) {
        let others = &sayings[at + 1..];
        let len = run_len(first, others);
        push_line(alloc, &mut text, first, &others[..len])?;
        at = at + 1 + len;
    }
    Ok(text)
}

// What the register says of the texts of these rows, in order.
fn said_of<'a>(
    alloc: Global,
    rows: &'a [Row],
    some: &'a [&Row],
) -> Result<Vec<Saying<'a>>, AllocError>
    requires { Ascends row_cmp (map row_seen rows.now) }
    ensures { IfOk result (λ made. (all : List Said) × Each (AreOfRow (map row_seen rows.now)) (seen_rows some.now) all × IsInOrder all (map said made.items)) }
{
    let made = sayings_about(alloc, rows, some)?;
    Ok(in_order(made))
}

/// A header, and a row for each key of these rows of a register that are not retired, by key, with the keys of successors. A key
/// with two texts has a row for each.
pub fn sheet_of_keys(
    alloc: Global,
    register: &Register,
    some: &[&Row],
) -> Result<Vec<u8>, AllocError>
    ensures { IfOk result (λ text. IsKeySheet register.now (seen_rows some.now) text.items) }
{
    let rows = rows(alloc, register)?;
    let made = said_of(alloc, &rows, some)?;
    let lines = lines_of(alloc, &made)?;
    let mut text = header_text(alloc)?;
    text.extend_from_slice(&lines)?;
    Ok(text)
}
