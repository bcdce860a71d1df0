//! Fields in columns.

ghost use Rattle.std.specs.Prelude.{◌≡◌, ◌++◌, OnOk, string_bytes};
ghost use Rattle.csv_table.specs.Cells.{width, blanks, cell, without_end};

use crate::marks::marked;
use std::alloc::{AllocError, Global};
use unicode_width::UnicodeWidthStr;

/// How many columns of a terminal the text takes.
pub fn width(text: &str) -> usize
    ensures { result ≡ width text.now }
{
    text.width()
}

fn push_blanks(line: &mut String, count: usize) -> Result<(), AllocError>
    ensures { OnOk result (string_bytes line.new ≡ string_bytes line.old ++ blanks count) }
{
    for _ in 0..count {
        line.push_str(" ")?;
    }
    Ok(())
}

/// Appends the field as it is shown, blanks up to this many columns, and two more.
pub fn push_cell(
    alloc: Global,
    line: &mut String,
    field: &[u8],
    columns: usize,
) -> Result<(), AllocError>
    ensures { OnOk result (string_bytes line.new ≡ string_bytes line.old ++ cell field.now columns) }
{
    let text = marked(alloc, field)?;
    line.push_str(&text)?;
    push_blanks(line, columns.saturating_sub(width(&text)))?;
    push_blanks(line, 2)?;
    Ok(())
}

/// The line without the blanks at its end.
pub fn without_end(line: &str) -> &[u8]
    ensures { result.now ≡ without_end line.now }
{
    line.as_bytes().trim_ascii_end()
}
