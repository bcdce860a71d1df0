//! The report of entries, line by line.

ghost use Rattle.std.specs.Prelude.{◌≡◌, ℕ, ◌++◌, List, map, Some, IfOk, OnOk};
ghost use Rattle.reg_op.specs.Text.{printed};
ghost use Rattle.reg_report.specs.Lines.{entries_header, status_word, spaced, spaced_after, IsEntryLine, IsSheet, IsReady, WritesRow};
ghost use Rattle.reg_report.specs.Seen.{row_seen};

use crate::lines::printed;
use crate::row::Row;
use crate::sheet::write_fields;
use csv::Writer;
use reg_op::{OpId, Status};
use std::alloc::{AllocError, Global};

/// The word for an entry's status in a report.
pub fn status_word(row: &Row) -> &[u8]
    ensures { result.now ≡ status_word (Some row.now.status) }
{
    match row.status {
        Status::Valid => b"valid",
        Status::Superseded => b"superseded",
        Status::Retired => b"retired",
    }
}

fn spaced_after(text: &mut Vec<u8>, ids: &[OpId]) -> Result<(), AllocError>
    ensures { OnOk result (text.new.items ≡ text.old.items ++ spaced_after ids.now) }
{
    let mut rest = ids;
    while let Some((id, others)) = rest.split_first() {
        text.push(b' ')?;
        id.write_to(text)?;
        rest = others;
    }
    Ok(())
}

/// The ids, separated by spaces.
pub fn spaced(alloc: Global, ids: &[OpId]) -> Result<Vec<u8>, AllocError>
    ensures { IfOk result (λ text. text.items ≡ spaced ids.now) }
{
    let mut text = Vec::new(alloc);
    let Some((first, others)) = ids.split_first() else {
        return Ok(text);
    };
    first.write_to(&mut text)?;
    spaced_after(&mut text, others)?;
    Ok(text)
}

fn write_header(wtr: &mut Writer<Vec<u8>>) -> Result<(), AllocError>
    requires { IsReady wtr.old }
    ensures { OnOk result (WritesRow wtr.old wtr.new entries_header) }
{
    write_fields(
        wtr,
        &[
            b"entry",
            b"authority",
            b"code",
            b"name",
            b"status",
            b"replaced_by",
        ],
    )
}

fn write_entry(alloc: Global, wtr: &mut Writer<Vec<u8>>, row: &Row) -> Result<(), AllocError>
    requires { IsReady wtr.old }
    ensures { OnOk result ((fields : List (List ℕ)) × IsEntryLine (row_seen row.now) fields × WritesRow wtr.old wtr.new fields) }
{
    let entry = printed(alloc, row.entry)?;
    let newer = spaced(alloc, &row.newer)?;
    let key = row.definition.key();
    let name = row.definition.name();
    write_fields(
        wtr,
        &[
            &entry,
            key.authority.as_bytes(),
            key.code.as_bytes(),
            name.as_bytes(),
            status_word(row),
            &newer,
        ],
    )?;
    Ok(())
}

/// A header, and a line for each entry.
pub fn entries_text(alloc: Global, rows: &[Row]) -> Result<Vec<u8>, AllocError>
    ensures { IfOk result (λ text. IsSheet entries_header IsEntryLine (map row_seen rows.now) text.items) }
{
    let mut wtr = Writer::from_writer(Vec::new(alloc));
    write_header(&mut wtr)?;
    let mut rest = rows;
    while let Some((row, others)) = rest.split_first() {
        write_entry(alloc, &mut wtr, row)?;
        rest = others;
    }
    match wtr.into_inner() {
        Ok(text) => Ok(text),
        Err(_) => Err(AllocError),
    }
}
