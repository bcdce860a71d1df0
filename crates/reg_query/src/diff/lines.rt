//! The text of a comparison, line by line.

ghost use Rattle.std.specs.Prelude.{◌≡◌, ℕ, List, map, IfOk, OnOk};
ghost use Rattle.reg_report.specs.Lines.{IsSheet, IsReady, WritesRow};
ghost use Rattle.reg_query.specs.DiffLines.{changes_header, IsChangeLine};
ghost use Rattle.reg_report.specs.Seen.{row_seen};
ghost use Rattle.reg_query.specs.Changes.{signed};
ghost use Rattle.reg_query.specs.ChangesSeen.{change_seen};

use crate::diff::change::{Sign, SignedRow, sign_text};
use csv::Writer;
use reg_report::{Row, printed, spaced, status_word, write_fields};
use std::alloc::{AllocError, Global};

fn write_header(wtr: &mut Writer<Vec<u8>>) -> Result<(), AllocError>
    requires { IsReady wtr.old }
    ensures { OnOk result (WritesRow wtr.old wtr.new changes_header) }
{
    write_fields(
        wtr,
        &[
            b"change",
            b"entry",
            b"authority",
            b"code",
            b"name",
            b"status",
            b"replaced_by",
        ],
    )
}

fn write_row(
    alloc: Global,
    wtr: &mut Writer<Vec<u8>>,
    sign: Sign,
    row: &Row,
) -> Result<(), AllocError>
    requires { IsReady wtr.old }
    ensures { OnOk result ((fields : List (List ℕ)) × IsChangeLine (signed sign (row_seen row.now)) fields × WritesRow wtr.old wtr.new fields) }
{
    let entry = printed(alloc, row.entry)?;
    let newer = spaced(alloc, &row.newer)?;
    let key = row.definition.key();
    let name = row.definition.name();
    write_fields(
        wtr,
        &[
            sign_text(&sign),
            &entry,
            key.authority.as_bytes(),
            key.code.as_bytes(),
            name.as_bytes(),
            status_word(row),
            &newer,
        ],
    )?;
    Ok(())
}

/// A header, and a line for each change.
pub fn changes_text(alloc: Global, changes: &[SignedRow<'_>]) -> Result<Vec<u8>, AllocError>
    ensures { IfOk result (λ text. IsSheet changes_header IsChangeLine (map change_seen changes.now) text.items) }
{
    let mut wtr = Writer::from_writer(Vec::new(alloc));
    write_header(&mut wtr)?;
    for change in changes {
        write_row(alloc, &mut wtr, change.sign, change.row)?;
    }
    match wtr.into_inner() {
        Ok(text) => Ok(text),
        Err(_) => Err(AllocError),
    }
}
