//! The reports of what is not in order, line by line.

ghost use Rattle.std.specs.Prelude.{◌≡◌, map, IfOk, OnOk};
ghost use Rattle.reg_report.specs.Lines.{conflicts_header, sheet_of, IsReady, WritesRow};
ghost use Rattle.reg_disorder.specs.Lists.{listed_seen};
ghost use Rattle.reg_disorder.specs.Reports.{keyed_fields, IsAmissText};

use crate::disorder::Disorder;
use crate::listed::ListedEntry;
use crate::listing::amiss;
use csv::Writer;
use reg_report::{printed, rows, write_fields};
use reg_state::Register;
use std::alloc::{AllocError, Global};

fn write_header(wtr: &mut Writer<Vec<u8>>) -> Result<(), AllocError>
    requires { IsReady wtr.old }
    ensures { OnOk result (WritesRow wtr.old wtr.new conflicts_header) }
{
    write_fields(wtr, &[b"authority", b"code", b"entry"])
}

fn write_listed(
    alloc: Global,
    wtr: &mut Writer<Vec<u8>>,
    listed: &ListedEntry,
) -> Result<(), AllocError>
    requires { IsReady wtr.old }
    ensures { OnOk result (WritesRow wtr.old wtr.new (keyed_fields (listed_seen listed.now))) }
{
    let entry = printed(alloc, listed.entry)?;
    write_fields(
        wtr,
        &[listed.authority.as_bytes(), listed.code.as_bytes(), &entry],
    )
}

fn lines_of(alloc: Global, listed: &[ListedEntry]) -> Result<Vec<u8>, AllocError>
    ensures { IfOk result (λ text. text.items ≡ sheet_of conflicts_header keyed_fields (map listed_seen listed.now)) }
{
    let mut wtr = Writer::from_writer(Vec::new(alloc));
    write_header(&mut wtr)?;
    for one in listed {
        write_listed(alloc, &mut wtr, one)?;
    }
    match wtr.into_inner() {
        Ok(text) => Ok(text),
        Err(_) => Err(AllocError),
    }
}

/// The report of what is not in order in this way: a header, and a line for each entry.
pub fn amiss_text(alloc: Global, register: &Register, way: Disorder) -> Result<Vec<u8>, AllocError>
    ensures { IfOk result (λ text. IsAmissText way register.now text.items) }
{
    let rows = rows(alloc, register)?;
    let listed = amiss(alloc, &rows, way)?;
    let text = lines_of(alloc, &listed)?;
    Ok(text)
}
