//! The report of files, line by line.

ghost use Rattle.std.specs.Prelude.{[], ◌∷◌, List, ℕ, map, decimal, IfOk, OnOk};
ghost use Rattle.reg_report.specs.Lines.{IsReady, WritesRow};
ghost use Rattle.reg_desk.specs.Status.{status_header, figure_fields, no_figures, IsStatusLine, IsStatusText};

use crate::look::Look;
use crate::words::words_of;
use csv::Writer;
use reg_query::Figures;
use reg_report::write_fields;
use std::alloc::{AllocError, Global};

fn write_header(wtr: &mut Writer<Vec<u8>>) -> Result<(), AllocError>
    requires { IsReady wtr.old }
    ensures { OnOk result (WritesRow wtr.old wtr.new status_header) }
{
    write_fields(
        wtr,
        &[
            b"file",
            b"bytes",
            b"fault",
            b"operations",
            b"entries",
            b"valid",
            b"superseded",
            b"retired",
            b"conflicts",
            b"awaited",
            b"gaps",
            b"duplicates",
            b"dangling",
            b"withdrawn",
        ],
    )
}

fn write_figures(
    alloc: Global,
    wtr: &mut Writer<Vec<u8>>,
    name: &[u8],
    bytes: usize,
    figures: &Figures,
) -> Result<(), AllocError>
    requires { IsReady wtr.old }
    ensures { OnOk result (WritesRow wtr.old wtr.new (name.now ∷ decimal bytes ∷ [] ∷ figure_fields figures.now)) }
{
    let bytes = bytes.to_string(alloc)?;
    let operations = figures.operations.to_string(alloc)?;
    let entries = figures.entries.to_string(alloc)?;
    let valid = figures.valid.to_string(alloc)?;
    let superseded = figures.superseded.to_string(alloc)?;
    let retired = figures.retired.to_string(alloc)?;
    let conflicts = figures.conflicts.to_string(alloc)?;
    let awaited = figures.awaited.to_string(alloc)?;
    let gaps = figures.gaps.to_string(alloc)?;
    let duplicates = figures.duplicates.to_string(alloc)?;
    let dangling = figures.dangling.to_string(alloc)?;
    let withdrawn = figures.withdrawn.to_string(alloc)?;
    write_fields(
        wtr,
        &[
            name,
            bytes.as_bytes(),
            b"",
            operations.as_bytes(),
            entries.as_bytes(),
            valid.as_bytes(),
            superseded.as_bytes(),
            retired.as_bytes(),
            conflicts.as_bytes(),
            awaited.as_bytes(),
            gaps.as_bytes(),
            duplicates.as_bytes(),
            dangling.as_bytes(),
            withdrawn.as_bytes(),
        ],
    )
}

// The size, if it is known, and the fault as it is printed, without figures.
fn write_fault(
    wtr: &mut Writer<Vec<u8>>,
    name: &[u8],
    bytes: &[u8],
    fault: &[u8],
) -> Result<(), AllocError>
    requires { IsReady wtr.old }
    ensures { OnOk result (WritesRow wtr.old wtr.new (name.now ∷ bytes.now ∷ fault.now ∷ no_figures)) }
{
    write_fields(
        wtr,
        &[
            name, bytes, fault, b"", b"", b"", b"", b"", b"", b"", b"", b"", b"", b"",
        ],
    )
}

fn write_line(
    alloc: Global,
    wtr: &mut Writer<Vec<u8>>,
    name: &[u8],
    look: &Look,
) -> Result<(), AllocError>
    requires { IsReady wtr.old }
    ensures { OnOk result ((fields : List (List ℕ)) × IsStatusLine name.now look.now fields × WritesRow wtr.old wtr.new fields) }
{
    match look {
        Look::Figures { bytes, figures } => write_figures(alloc, wtr, name, *bytes, figures),
        Look::NoRegister { bytes, fault } => {
            let bytes = bytes.to_string(alloc)?;
            let words = words_of(alloc, *fault)?;
            write_fault(wtr, name, bytes.as_bytes(), &words)
        }
        Look::Unread(fault) => {
            let words = words_of(alloc, *fault)?;
            write_fault(wtr, name, b"", &words)
        }
        Look::NoShelf(problem) => write_fault(wtr, name, b"", problem.name().as_bytes()),
    }
}

/// A header, and a line for each name with the result for its file or shelf.
pub(crate) fn status_text(
    alloc: Global,
    names: &[&[u8]],
    looks: &[Look],
) -> Result<Vec<u8>, AllocError>
    ensures { IfOk result (λ text. IsStatusText (map (λ n. n.now) names.now) looks.now text.items) }
{
    let mut wtr = Writer::from_writer(Vec::new(alloc));
    write_header(&mut wtr)?;
    for i in 0..names.len().min(looks.len()) {
        write_line(alloc, &mut wtr, names[i], &looks[i])?;
    }
    match wtr.into_inner() {
        Ok(text) => Ok(text),
        Err(_) => Err(AllocError),
    }
}
