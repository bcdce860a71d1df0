//! The reports of awaited ids, of gaps and of operations, line by line.

ghost use Rattle.std.specs.Prelude.{◌≡◌, IfOk, OnOk};
ghost use Rattle.reg_op.specs.Text.{printed};
ghost use Rattle.reg_report.specs.Lines.{sheet_of, awaited_header, awaited_fields, gaps_header, gap_fields, ops_header, op_fields, IsReady, WritesRow};

use crate::gap::Gap;
use crate::sheet::write_fields;
use csv::Writer;
use reg_op::{Op, OpBody, OpId};
use std::alloc::{AllocError, Global};
use uuid::Uuid;

/// The printed form of an id.
pub fn printed(alloc: Global, id: OpId) -> Result<Vec<u8>, AllocError>
    ensures { IfOk result (λ text. text.items ≡ printed id) }
{
    let mut text = Vec::new(alloc);
    id.write_to(&mut text)?;
    Ok(text)
}

fn write_awaited_header(wtr: &mut Writer<Vec<u8>>) -> Result<(), AllocError>
    requires { IsReady wtr.old }
    ensures { OnOk result (WritesRow wtr.old wtr.new awaited_header) }
{
    write_fields(wtr, &[b"entry"])
}

fn write_awaited(alloc: Global, wtr: &mut Writer<Vec<u8>>, id: OpId) -> Result<(), AllocError>
    requires { IsReady wtr.old }
    ensures { OnOk result (WritesRow wtr.old wtr.new (awaited_fields id)) }
{
    let text = printed(alloc, id)?;
    write_fields(wtr, &[&text])
}

/// A header, and a line for each id.
pub fn awaited_text(alloc: Global, ids: &[OpId]) -> Result<Vec<u8>, AllocError>
    ensures { IfOk result (λ text. text.items ≡ sheet_of awaited_header awaited_fields ids.now) }
{
    let mut wtr = Writer::from_writer(Vec::new(alloc));
    write_awaited_header(&mut wtr)?;
    for id in ids {
        write_awaited(alloc, &mut wtr, *id)?;
    }
    match wtr.into_inner() {
        Ok(text) => Ok(text),
        Err(_) => Err(AllocError),
    }
}

fn write_gaps_header(wtr: &mut Writer<Vec<u8>>) -> Result<(), AllocError>
    requires { IsReady wtr.old }
    ensures { OnOk result (WritesRow wtr.old wtr.new gaps_header) }
{
    write_fields(wtr, &[b"replica", b"low", b"high"])
}

fn write_gap(alloc: Global, wtr: &mut Writer<Vec<u8>>, gap: &Gap) -> Result<(), AllocError>
    requires { IsReady wtr.old }
    ensures { OnOk result (WritesRow wtr.old wtr.new (gap_fields gap.now)) }
{
    let mut buffer = Uuid::encode_buffer();
    let replica = gap.replica.hyphenated().encode_lower(&mut buffer);
    let low = gap.low.to_string(alloc)?;
    let high = gap.high.to_string(alloc)?;
    write_fields(wtr, &[replica.as_bytes(), low.as_bytes(), high.as_bytes()])
}

/// A header, and a line for each gap.
pub fn gaps_text(alloc: Global, gaps: &[Gap]) -> Result<Vec<u8>, AllocError>
    ensures { IfOk result (λ text. text.items ≡ sheet_of gaps_header gap_fields gaps.now) }
{
    let mut wtr = Writer::from_writer(Vec::new(alloc));
    write_gaps_header(&mut wtr)?;
    for gap in gaps {
        write_gap(alloc, &mut wtr, gap)?;
    }
    match wtr.into_inner() {
        Ok(text) => Ok(text),
        Err(_) => Err(AllocError),
    }
}

fn write_ops_header(wtr: &mut Writer<Vec<u8>>) -> Result<(), AllocError>
    requires { IsReady wtr.old }
    ensures { OnOk result (WritesRow wtr.old wtr.new ops_header) }
{
    write_fields(
        wtr,
        &[
            b"operation",
            b"effect",
            b"entry",
            b"replaced_by",
            b"definition",
            b"note",
        ],
    )
}

fn write_op(alloc: Global, wtr: &mut Writer<Vec<u8>>, op: &Op) -> Result<(), AllocError>
    requires { IsReady wtr.old }
    ensures { OnOk result (WritesRow wtr.old wtr.new (op_fields op.now)) }
{
    let id = printed(alloc, op.id())?;
    let note = op.note().as_bytes();
    match op.body() {
        OpBody::Enter(definition) => {
            let text = definition.as_bytes();
            write_fields(wtr, &[&id, b"enter", &id, b"", text, note])
        }
        OpBody::Supersede { old, newer } => {
            let old = printed(alloc, *old)?;
            let newer = printed(alloc, *newer)?;
            write_fields(wtr, &[&id, b"supersede", &old, &newer, b"", note])
        }
        OpBody::Retire { entry } => {
            let entry = printed(alloc, *entry)?;
            write_fields(wtr, &[&id, b"retire", &entry, b"", b"", note])
        }
    }
}

/// A header, and a line for each operation.
pub fn ops_text(alloc: Global, ops: &[Op]) -> Result<Vec<u8>, AllocError>
    ensures { IfOk result (λ text. text.items ≡ sheet_of ops_header op_fields ops.now) }
{
    let mut wtr = Writer::from_writer(Vec::new(alloc));
    write_ops_header(&mut wtr)?;
    for op in ops {
        write_op(alloc, &mut wtr, op)?;
    }
    match wtr.into_inner() {
        Ok(text) => Ok(text),
        Err(_) => Err(AllocError),
    }
}
