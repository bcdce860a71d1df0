//! The columns of a table: their widths, and which are named `entry`.

ghost use Rattle.std.specs.Prelude.{◌≡◌, map, IfOk, if◌then◌else◌};
ghost use Rattle.csv_table.specs.Records.{ForRecords};
ghost use Rattle.csv_table.specs.Table.{named, fitted, first, others, widened, columns};

use crate::cells::width;
use crate::marks::marked;
use crate::records::{each_record, fields};
use std::alloc::{AllocError, Global};

/// A column.
#[derive(Clone, Copy)]
pub struct Column {
    pub width: usize,
    pub is_entry: bool,
}

// No column is padded beyond this width: one long field does not widen all lines.
const WIDEST: usize = 60;

// A column that the header does not name.
const UNNAMED: Column = Column {
    width: 0,
    is_entry: false,
};

fn named(name: &[u8]) -> Column
    ensures { result ≡ named name.now }
{
    Column {
        width: 0,
        is_entry: name == b"entry".as_slice(),
    }
}

// The column, as wide as the field at least, but no wider than 60.
fn fitted(alloc: Global, field: &[u8], column: Column) -> Result<Column, AllocError>
    ensures { IfOk result (λ c. c ≡ fitted field.now column) }
{
    let text = marked(alloc, field)?;
    let width = width(&text).min(WIDEST);
    Ok(Column {
        width: column.width.max(width),
        is_entry: column.is_entry,
    })
}

/// The first of the columns.
pub fn first(columns: &[Column]) -> Column
    ensures { result ≡ first columns.now }
{
    match columns.split_first() {
        Some((column, _)) => *column,
        None => UNNAMED,
    }
}

/// The columns after the first.
pub fn others(columns: &[Column]) -> &[Column]
    ensures { result.now ≡ others columns.now }
{
    match columns.split_first() {
        Some((_, others)) => others,
        None => columns,
    }
}

// The columns that the header names.
fn named_columns(alloc: Global, header: &[&[u8]]) -> Result<Vec<Column>, AllocError>
    ensures { IfOk result (λ made. made.items ≡ map (λ name. named name.now) header.now) }
{
    let mut made = Vec::new(alloc);
    for name in header {
        made.push(named(name))?;
    }
    Ok(made)
}

// The columns, each as wide as its field at least, up to that width.
fn widened(alloc: Global, fields: &[&[u8]], columns: &[Column]) -> Result<Vec<Column>, AllocError>
    ensures { IfOk result (λ made. made.items ≡ widened (map (λ field. field.now) fields.now) columns.now) }
{
    let mut made = Vec::new(alloc);
    let mut rest = columns;
    for field in fields {
        let column = fitted(alloc, field, first(rest))?;
        made.push(column)?;
        rest = others(rest);
    }
    made.extend_from_slice(rest)?;
    Ok(made)
}

// The columns after one more record. The header names them first.
fn after(
    alloc: Global,
    is_header: bool,
    fields: &[&[u8]],
    columns: Vec<Column>,
) -> Result<Vec<Column>, AllocError>
    ensures { IfOk result (λ made. made.items ≡ widened (map (λ field. field.now) fields.now) (if is_header then map (λ name. named name.now) fields.now else columns.items)) }
{
    if is_header {
        let columns = named_columns(alloc, fields)?;
        return widened(alloc, fields, &columns);
    }
    widened(alloc, fields, &columns)
}

/// The columns of the rows, each as wide as its widest field, but no wider than 60.
pub fn columns(alloc: Global, rows: &[u8]) -> Result<Vec<Column>, AllocError>
    ensures { IfOk result (λ made. ForRecords rows.now (λ records. made.items ≡ columns records)) }
{
    let mut made = Vec::new(alloc);
    let mut is_header = true;
    for row in each_record(alloc, rows) {
        let Ok(row) = row else {
            return Err(AllocError);
        };
        made = after(alloc, is_header, &fields(alloc, &row)?, made)?;
        is_header = false;
    }
    Ok(made)
}
