//! The rows of CSV with names in the place of UUIDs.

ghost use Rattle.std.specs.Prelude.{◌≡◌, IfOk, OnOk, map};
ghost use Rattle.csv.specs.Records.{fields_of};
ghost use Rattle.csv_table.specs.Shown.{shown, sheet, AreShown};
ghost use Rattle.csv_table.specs.Sheets.{IsReady, WritesRow};

use crate::offices::names::Name;
use crate::offices::shown::named_in;
use crate::offices::standing::Names;
use crate::records::{fields, records};
use csv::{ByteRecord, Writer};
use std::alloc::{AllocError, Global};

/// The rows of CSV with names in the place of the UUIDs of offices, in each field. With `keeps`, each UUID follows its name in
/// parentheses.
pub fn with_names(
    alloc: Global,
    keeps: bool,
    names: &[Name],
    rows: &[u8],
) -> Result<Vec<u8>, AllocError>
    ensures { IfOk result (λ text. AreShown keeps names.now rows.now text.items) }
{
    let Ok(records) = records(alloc, rows) else {
        return Err(AllocError);
    };
    let names = Names::indexed(alloc, names)?;
    let text = sheet(alloc, keeps, &names, &records)?;
    Ok(text)
}

fn sheet(
    alloc: Global,
    keeps: bool,
    names: &Names<'_>,
    records: &[ByteRecord],
) -> Result<Vec<u8>, AllocError>
    ensures { IfOk result (λ text. text.items ≡ sheet keeps names.now (map fields_of records.now)) }
{
    let mut wtr = Writer::from_writer(Vec::new(alloc));
    for record in records {
        write_record(alloc, &mut wtr, keeps, names, record)?;
    }
    match wtr.into_inner() {
        Ok(text) => Ok(text),
        Err(_) => Err(AllocError),
    }
}

fn write_record(
    alloc: Global,
    wtr: &mut Writer<Vec<u8>>,
    keeps: bool,
    names: &Names<'_>,
    row: &ByteRecord,
) -> Result<(), AllocError>
    requires { IsReady wtr.old }
    ensures { OnOk result (WritesRow wtr.old wtr.new (map (shown keeps names.now) (fields_of row.now))) }
{
    let fields = fields(alloc, row)?;
    let shown = named_fields(alloc, keeps, names, &fields)?;
    write_shown(alloc, wtr, &shown)
}

// The fields, each with names.
fn named_fields(
    alloc: Global,
    keeps: bool,
    names: &Names<'_>,
    fields: &[&[u8]],
) -> Result<Vec<Vec<u8>>, AllocError>
    ensures { IfOk result (λ made. map (λ field. field.items) made.items ≡ map (shown keeps names.now) (map (λ field. field.now) fields.now)) }
{
    let mut made = Vec::new(alloc);
    for field in fields {
        made.push(named_in(alloc, keeps, names, field)?)?;
    }
    Ok(made)
}

// Writes a line of these fields.
fn write_shown(
    alloc: Global,
    wtr: &mut Writer<Vec<u8>>,
    fields: &[Vec<u8>],
) -> Result<(), AllocError>
    requires { IsReady wtr.old }
    ensures { OnOk result (WritesRow wtr.old wtr.new (map (λ field. field.items) fields.now)) }
{
    let bytes = slices(alloc, fields)?;
    write_fields(wtr, &bytes)
}

fn write_fields(wtr: &mut Writer<Vec<u8>>, fields: &[&[u8]]) -> Result<(), AllocError>
    requires { IsReady wtr.old }
    ensures { OnOk result (WritesRow wtr.old wtr.new (map (λ field. field.now) fields.now)) }
{
    wtr.write_fields(fields).map_err(|_| AllocError)?;
    Ok(())
}

fn slices(alloc: Global, fields: &[Vec<u8>]) -> Result<Vec<&[u8]>, AllocError>
    ensures { IfOk result (λ made. map (λ field. field.now) made.items ≡ map (λ field. field.items) fields.now) }
{
    let mut made = Vec::new(alloc);
    for field in fields {
        made.push(field.as_slice())?;
    }
    Ok(made)
}
