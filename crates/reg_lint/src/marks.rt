//! What a row is known again by: all its fields but the entry.

ghost use Rattle.std.specs.Prelude.{◌≡◌, map, IfOk};
ghost use Rattle.csv.specs.Writing.{row_text, default_writer};
ghost use Rattle.reg_lint.specs.Known.{mark_of};

use csv::Writer;
use reg_report::write_fields;
use std::alloc::{AllocError, Global};

/// The fields of a row, without the entry, as a row of their own. Rows of fewer than six fields have none.
pub(crate) fn mark_of(alloc: Global, fields: &[&[u8]]) -> Result<Vec<u8>, AllocError>
    ensures { IfOk result (λ text. text.items ≡ mark_of (map (λ field. field.now) fields.now)) }
{
    if fields.len() < 6 {
        return Ok(Vec::new(alloc));
    }
    let text = row_text(
        alloc,
        &[fields[0], fields[2], fields[3], fields[4], fields[5]],
    )?;
    Ok(text)
}

fn row_text(alloc: Global, fields: &[&[u8]]) -> Result<Vec<u8>, AllocError>
    ensures { IfOk result (λ text. text.items ≡ row_text default_writer (map (λ field. field.now) fields.now)) }
{
    let mut wtr = Writer::from_writer(Vec::new(alloc));
    write_fields(&mut wtr, fields)?;
    match wtr.into_inner() {
        Ok(text) => Ok(text),
        Err(_) => Err(AllocError),
    }
}
