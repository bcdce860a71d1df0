//! Statements that put reference systems into PROJ's tables.

ghost use Rattle.std.specs.Prelude.{◌≡◌, ◌++◌, ◌∷◌, [], List, map, OnOk};
ghost use Rattle.crs_export.specs.declared.markup.TheConstants as markup;
ghost use Rattle.crs_export.specs.declared.filed.Filed.{Filed as OneFiled};
ghost use Rattle.crs_export.specs.Held.{Holds};
ghost use Rattle.crs_export.specs.Sql.{row, insertion, on_line, comment, inserted_as, line_as, text_at, judged};

use crate::filed::Filed;
use crate::held::{HeldText, RowPlace};
use crate::markup::{COMMA, LEFT_OUT, ROW_END};
use crate::row_text::{push_field, start_of, type_of};
use crate::table::Table;
use crate::verdict::{Verdict, judge};
use std::alloc::AllocError;
use std::collections::BTreeMap;

// Appends a row between the start of a statement and the type of the row.
fn push_between(
    text: &mut Vec<u8>,
    start: &[u8],
    filed: &Filed<'_>,
    kind: &[u8],
) -> Result<(), AllocError>
    ensures { OnOk result (text.new.items ≡ text.old.items ++ row start.now filed.now kind.now) }
{
    push_field(text, start, filed.keyed.authority)?;
    push_field(text, COMMA, filed.keyed.code)?;
    push_field(text, COMMA, filed.name)?;
    push_field(text, kind, filed.keyed.text)?;
    text.extend_from_slice(ROW_END)?;
    Ok(())
}

fn push_insertion(text: &mut Vec<u8>, filed: &Filed<'_>, table: Table) -> Result<(), AllocError>
    ensures { OnOk result (text.new.items ≡ text.old.items ++ insertion filed.now table) }
{
    push_between(text, start_of(table), filed, type_of(table))?;
    Ok(())
}

fn on_line(byte: u8) -> u8
    ensures { result ≡ on_line byte }
{
    if byte < 32 { b' ' } else { byte }
}

fn push_on_line(text: &mut Vec<u8>, bytes: &[u8]) -> Result<(), AllocError>
    ensures { OnOk result (text.new.items ≡ text.old.items ++ map on_line bytes.now) }
{
    for byte in bytes {
        text.push(on_line(*byte))?;
    }
    Ok(())
}

fn push_comment(text: &mut Vec<u8>, filed: &Filed<'_>) -> Result<(), AllocError>
    ensures { OnOk result (text.new.items ≡ text.old.items ++ comment filed.now) }
{
    text.extend_from_slice(LEFT_OUT)?;
    push_on_line(text, &filed.entry)?;
    text.push(b' ')?;
    push_on_line(text, filed.name)?;
    text.push(b'\n')?;
    Ok(())
}

fn push_inserted(text: &mut Vec<u8>, filed: &Filed<'_>) -> Result<(), AllocError>
    ensures { OnOk result (text.new.items ≡ text.old.items ++ inserted_as filed.now filed.now.table) }
{
    match filed.table {
        Some(table) => push_insertion(text, filed, table),
        None => text.extend_from_slice(&filed.rows),
    }
}

fn push_line(text: &mut Vec<u8>, filed: &Filed<'_>, as_is: Verdict) -> Result<(), AllocError>
    ensures { OnOk result (text.new.items ≡ text.old.items ++ line_as filed.now as_is) }
{
    match as_is {
        Verdict::Insert => push_inserted(text, filed),
        Verdict::Again => Ok(()),
        Verdict::LeftOut => push_comment(text, filed),
    }
}

/// Appends the statements of an entry after others, whose texts are held in their places. If an earlier one has its place, it appends
/// nothing or, if the texts differ, a comment; also a comment if the tables cannot hold it. The text of an inserted entry is held, too.
pub fn push_entry<'a>(
    held: &mut BTreeMap<RowPlace<'a>, HeldText<'a>>,
    text: &mut Vec<u8>,
    filed: &Filed<'a>,
) -> Result<(), AllocError>
    ensures { (before : List OneFiled) → Holds held.old (λ p. text_at p before)
        → OnOk result ((text.new.items ≡ text.old.items ++ line_as filed.now (judged before filed.now)) × Holds held.new (λ p. text_at p (before ++ filed.now ∷ []))) }
{
    let verdict = judge(held, filed)?;
    push_line(text, filed, verdict)?;
    Ok(())
}
