//! The report of conflicts, line by line.

ghost use Rattle.std.specs.Prelude.{◌≡◌, map, IfOk, OnOk};
ghost use Rattle.reg_report.specs.Contenders.{conflict_seen};
ghost use Rattle.reg_report.specs.Lines.{conflicts_header, contender_fields, conflict_lines, conflicts_sheet, IsReady, WritesRow, WritesRows};

use crate::conflict::Conflict;
use crate::lines::printed;
use crate::sheet::write_fields;
use csv::Writer;
use reg_op::OpId;
use std::alloc::{AllocError, Global};

fn write_conflicts_header(wtr: &mut Writer<Vec<u8>>) -> Result<(), AllocError>
    requires { IsReady wtr.old }
    ensures { OnOk result (WritesRow wtr.old wtr.new conflicts_header) }
{
    write_fields(wtr, &[b"authority", b"code", b"entry"])
}

fn write_contender(
    alloc: Global,
    wtr: &mut Writer<Vec<u8>>,
    authority: &[u8],
    code: &[u8],
    entry: OpId,
) -> Result<(), AllocError>
    requires { IsReady wtr.old }
    ensures { OnOk result (WritesRow wtr.old wtr.new (contender_fields authority.now code.now entry)) }
{
    let entry = printed(alloc, entry)?;
    write_fields(wtr, &[authority, code, &entry])
}

// A line for each entry of a key.
fn write_conflict(
    alloc: Global,
    wtr: &mut Writer<Vec<u8>>,
    conflict: &Conflict,
) -> Result<(), AllocError>
    requires { IsReady wtr.old }
    ensures { OnOk result (WritesRows wtr.old wtr.new (conflict_lines (conflict_seen conflict.now))) }
{
    let (authority, code) = (conflict.authority.as_bytes(), conflict.code.as_bytes());
    for entry in &conflict.entries {
        write_contender(alloc, wtr, authority, code, *entry)?;
    }
    Ok(())
}

/// A header, and a line for each entry of each key.
pub fn conflicts_text(alloc: Global, conflicts: &[Conflict]) -> Result<Vec<u8>, AllocError>
    ensures { IfOk result (λ text. text.items ≡ conflicts_sheet (map conflict_seen conflicts.now)) }
{
    let mut wtr = Writer::from_writer(Vec::new(alloc));
    write_conflicts_header(&mut wtr)?;
    for conflict in conflicts {
        write_conflict(alloc, &mut wtr, conflict)?;
    }
    match wtr.into_inner() {
        Ok(text) => Ok(text),
        Err(_) => Err(AllocError),
    }
}
