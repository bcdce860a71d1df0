//! The text of a log, line by line.

ghost use Rattle.std.specs.Prelude.{◌≡◌, ℕ, [], List, IfOk, OnOk};
ghost use Rattle.reg_report.specs.Lines.{IsReady, WritesRow};
ghost use Rattle.reg_query.specs.Asked.{is_asked};
ghost use Rattle.reg_query.specs.LogLines.{log_header, effect_word, newer_text, log_fields, IsTitled, IsLogLine, AreLogLines, IsLog};

use crate::log::asked::Asked;
use crate::log::logged::logged;
use crate::log::order::subject;
use csv::Writer;
use reg_op::{Op, OpBody};
use reg_report::{printed, write_fields};
use reg_state::Register;
use std::alloc::{AllocError, Global};
use wkt_crs::Definition;

fn write_header(wtr: &mut Writer<Vec<u8>>) -> Result<(), AllocError>
    requires { IsReady wtr.old }
    ensures { OnOk result (WritesRow wtr.old wtr.new log_header) }
{
    write_fields(
        wtr,
        &[
            b"entry",
            b"authority",
            b"code",
            b"name",
            b"operation",
            b"effect",
            b"replaced_by",
            b"note",
        ],
    )
}

fn effect_text(alloc: Global, body: &OpBody) -> Result<Vec<u8>, AllocError>
    ensures { IfOk result (λ text. text.items ≡ effect_word body.now) }
{
    match body {
        OpBody::Enter(_) => Vec::from_slice(alloc, b"enter"),
        OpBody::Supersede { old: _, newer: _ } => Vec::from_slice(alloc, b"supersede"),
        OpBody::Retire { entry: _ } => Vec::from_slice(alloc, b"retire"),
    }
}

// The entry that supersedes, if one does.
fn newer_text(alloc: Global, body: &OpBody) -> Result<Vec<u8>, AllocError>
    ensures { IfOk result (λ text. text.items ≡ newer_text body.now) }
{
    match body {
        OpBody::Enter(_) => Ok(Vec::new(alloc)),
        OpBody::Supersede { old: _, newer } => printed(alloc, *newer),
        OpBody::Retire { entry: _ } => Ok(Vec::new(alloc)),
    }
}

// The line of an operation. That of an entry's first one has the key and the name of its text.
fn write_line(alloc: Global, wtr: &mut Writer<Vec<u8>>, op: &Op) -> Result<(), AllocError>
    requires { IsReady wtr.old }
    ensures { OnOk result ((fields : List (List ℕ)) × IsLogLine op.now fields × WritesRow wtr.old wtr.new fields) }
{
    match op.body() {
        OpBody::Enter(definition) => write_entered(alloc, wtr, op, definition),
        OpBody::Supersede { old: _, newer: _ } => write_untitled(alloc, wtr, op),
        OpBody::Retire { entry: _ } => write_untitled(alloc, wtr, op),
    }
}

// The line of a later operation.
fn write_untitled(alloc: Global, wtr: &mut Writer<Vec<u8>>, op: &Op) -> Result<(), AllocError>
    requires { IsReady wtr.old }
    ensures { OnOk result (WritesRow wtr.old wtr.new (log_fields op.now [] [] [])) }
{
    let entry = printed(alloc, subject(op))?;
    let id = printed(alloc, op.id())?;
    let effect = effect_text(alloc, op.body())?;
    let newer = newer_text(alloc, op.body())?;
    let note = op.note().as_bytes();
    write_fields(wtr, &[&entry, b"", b"", b"", &id, &effect, &newer, note])
}

// The line of the operation that entered this definition.
fn write_entered(
    alloc: Global,
    wtr: &mut Writer<Vec<u8>>,
    op: &Op,
    definition: &Definition,
) -> Result<(), AllocError>
    requires { IsReady wtr.old }
    ensures { OnOk result ((fields : List (List ℕ)) × IsTitled op.now definition.now fields × WritesRow wtr.old wtr.new fields) }
{
    let entry = printed(alloc, subject(op))?;
    let id = printed(alloc, op.id())?;
    let effect = effect_text(alloc, op.body())?;
    let newer = newer_text(alloc, op.body())?;
    let note = op.note().as_bytes();
    let key = definition.key();
    let name = definition.name();
    write_fields(
        wtr,
        &[
            &entry,
            key.authority.as_bytes(),
            key.code.as_bytes(),
            name.as_bytes(),
            &id,
            &effect,
            &newer,
            note,
        ],
    )?;
    Ok(())
}

fn lines_text(alloc: Global, ops: &[Op]) -> Result<Vec<u8>, AllocError>
    ensures { IfOk result (λ text. AreLogLines ops.now text.items) }
{
    let mut wtr = Writer::from_writer(Vec::new(alloc));
    write_header(&mut wtr)?;
    let mut rest = ops;
    while let Some((op, others)) = rest.split_first() {
        write_line(alloc, &mut wtr, op)?;
        rest = others;
    }
    match wtr.into_inner() {
        Ok(text) => Ok(text),
        Err(_) => Err(AllocError),
    }
}

/// A header, and a line for each operation that the register keeps on the requested entries, entry by entry. An entry's key and name
/// stand only in the line of the operation that entered it, so a long name is printed once.
pub fn log_text(
    alloc: Global,
    register: &Register,
    asked: &Asked<'_>,
) -> Result<Vec<u8>, AllocError>
    ensures { IfOk result (λ text. IsLog (is_asked asked.now) register.now.ops text.items) }
{
    let ops = logged(alloc, register, asked)?;
    let text = lines_text(alloc, &ops)?;
    Ok(text)
}
