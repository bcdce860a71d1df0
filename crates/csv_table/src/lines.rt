//! The lines of a table.

ghost use Rattle.std.specs.Prelude.{◌≡◌, ◌++◌, map, IfOk, OnOk, string_bytes};
ghost use Rattle.csv_table.specs.Answer.{IsTableOf};
ghost use Rattle.csv_table.specs.Records.{ForRecords};
ghost use Rattle.csv_table.specs.Table.{cell_if, cells, line, lines};

use crate::cells::{push_cell, without_end};
use crate::columns::{Column, columns, first, others};
use crate::records::{each_record, fields};
use std::alloc::{AllocError, Global};

/// The table of the rows, which are CSV with a header: the fields of each row, aligned in columns with two blanks between. The columns
/// named `entry` come last. The error is out of memory.
pub fn table(alloc: Global, rows: &[u8]) -> Result<Vec<u8>, AllocError>
    ensures { IfOk result (λ text. IsTableOf rows.now text.items) }
{
    let columns = columns(alloc, rows)?;
    let mut text = Vec::new(alloc);
    push_lines(alloc, &mut text, &columns, rows)?;
    Ok(text)
}

// The rows are read a second time, which takes less memory than to keep the fields of all.
fn push_lines(
    alloc: Global,
    text: &mut Vec<u8>,
    columns: &[Column],
    rows: &[u8],
) -> Result<(), AllocError>
    ensures { OnOk result (ForRecords rows.now (λ records. text.new.items ≡ text.old.items ++ lines columns.now records)) }
{
    for row in each_record(alloc, rows) {
        let Ok(row) = row else {
            return Err(AllocError);
        };
        push_line(alloc, text, columns, &fields(alloc, &row)?)?;
    }
    Ok(())
}

fn push_line(
    alloc: Global,
    text: &mut Vec<u8>,
    columns: &[Column],
    fields: &[&[u8]],
) -> Result<(), AllocError>
    ensures { OnOk result (text.new.items ≡ text.old.items ++ line columns.now (map (λ field. field.now) fields.now)) }
{
    let mut line = String::new(alloc);
    push_cells(alloc, &mut line, false, fields, columns)?;
    push_cells(alloc, &mut line, true, fields, columns)?;
    text.extend_from_slice(without_end(&line))?;
    text.push(b'\n')?;
    Ok(())
}

// Appends the fields of the columns named `entry`, or of the others.
fn push_cells(
    alloc: Global,
    line: &mut String,
    is_entry: bool,
    fields: &[&[u8]],
    columns: &[Column],
) -> Result<(), AllocError>
    ensures { OnOk result (string_bytes line.new ≡ string_bytes line.old ++ cells is_entry (map (λ field. field.now) fields.now) columns.now) }
{
    let mut rest = columns;
    for field in fields {
        push_if(alloc, line, is_entry, field, first(rest))?;
        rest = others(rest);
    }
    Ok(())
}

// Appends the field, if its column is one of those.
fn push_if(
    alloc: Global,
    line: &mut String,
    is_entry: bool,
    field: &[u8],
    column: Column,
) -> Result<(), AllocError>
    ensures { OnOk result (string_bytes line.new ≡ string_bytes line.old ++ cell_if is_entry field.now column) }
{
    if column.is_entry != is_entry {
        return Ok(());
    }
    push_cell(alloc, line, field, column.width)?;
    Ok(())
}
