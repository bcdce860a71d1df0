//! The rows of what breaks rules.

ghost use Rattle.std.specs.Prelude.{◌≡◌, List, map, IfOk, OnOk};
ghost use Rattle.reg_report.specs.Lines.{IsReady, WritesRow};
ghost use Rattle.reg_sense.specs.Claimants.{detail_seen};
ghost use Rattle.reg_lint.specs.Known.{has_mark};
ghost use Rattle.reg_lint.specs.Disputes.{AreSettled};
ghost use Rattle.reg_lint.specs.Screening.{kept_in};
ghost use Rattle.reg_lint.specs.Subjects.{Subject, IsKept, AreKept};
ghost use Rattle.reg_lint.specs.Lines.{lint_header, row_of, line_of, lines_of, all_lines, lint_sheet, has_rows, fields_in, fields_of, Writes};

use crate::details::details;
use crate::disputes::{Disputes, disputes_for};
use crate::kept::{KeptSubject, crs_of};
use crate::keys::{authority_of, code_of, copied};
use crate::known::Known;
use crate::marks::mark_of;
use crate::rule::AnyRule;
use crate::screened::Screened;
use crate::screening::looked_at;
use crs_value::Crs;
use csv::Writer;
use reg_report::write_fields;
use std::alloc::{AllocError, Global};

/// The header of the rows, as it is printed.
const HEADER: &[u8] = b"rule,entry,authority,code,name,detail\n";

/// A header, and for each rule the rows of the reference systems that break it, in order, without those that are known.
pub fn lint_text(
    alloc: Global,
    known: &Known,
    rules: &[AnyRule],
    kept: &[KeptSubject],
) -> Result<Vec<u8>, AllocError>
    ensures { (subjects : List Subject) → AreKept kept.now subjects → IfOk result (λ text. text.items ≡ lint_sheet (has_mark known.now) rules.now subjects) }
{
    let screened = looked_at(alloc, rules.len(), kept)?;
    let disputes = disputes_for(alloc, rules, kept)?;
    let mut wtr = Writer::from_writer(Vec::new(alloc));
    write_header(&mut wtr)?;
    write_all_lines(alloc, &mut wtr, known, rules, &disputes, kept, &screened)?;
    match wtr.into_inner() {
        Ok(text) => Ok(text),
        Err(_) => Err(AllocError),
    }
}

/// Whether rows follow the header.
pub fn has_rows(text: &[u8]) -> bool
    ensures { result ≡ has_rows text.now }
{
    text.len() > HEADER.len()
}

fn write_header(wtr: &mut Writer<Vec<u8>>) -> Result<(), AllocError>
    requires { IsReady wtr.old }
    ensures { OnOk result (WritesRow wtr.old wtr.new lint_header) }
{
    write_fields(
        wtr,
        &[b"rule", b"entry", b"authority", b"code", b"name", b"detail"],
    )
}

// Writes the rows of each rule.
fn write_all_lines(
    alloc: Global,
    wtr: &mut Writer<Vec<u8>>,
    known: &Known,
    rules: &[AnyRule],
    disputes: &Disputes,
    kept: &[KeptSubject],
    screened: &[Screened<'_>],
) -> Result<(), AllocError>
    requires ready { IsReady wtr.old }
    requires looked { map kept_in screened.now ≡ kept.now }
    ensures { (ss : List Subject) → AreKept kept.now ss → AreSettled disputes.now ss → OnOk result (Writes wtr.old wtr.new (all_lines (has_mark known.now) rules.now ss)) }
{
    let mut rest = rules;
    while let Some((rule, others)) = rest.split_first() {
        let found = details(alloc, *rule, disputes, kept, screened)?;
        write_lines(alloc, wtr, known, *rule, kept, &found)?;
        rest = others;
    }
    Ok(())
}

// Writes the rows of a rule.
fn write_lines(
    alloc: Global,
    wtr: &mut Writer<Vec<u8>>,
    known: &Known,
    rule: AnyRule,
    kept: &[KeptSubject],
    found: &[Option<Vec<u8>>],
) -> Result<(), AllocError>
    requires { IsReady wtr.old }
    ensures ready { OnOk result (IsReady wtr.new) }
    ensures rows { (ss : List Subject) → AreKept kept.now ss → OnOk result (Writes wtr.old wtr.new (lines_of (has_mark known.now) rule ss (map detail_seen found.now))) }
{
    let mut left = kept;
    let mut rest = found;
    while let (Some((one, later)), Some((detail, others))) = (
        left.split_first(),
        rest.split_first(),
    ) {
        write_line(alloc, wtr, known, rule, one, detail)?;
        left = later;
        rest = others;
    }
    Ok(())
}

fn write_line(
    alloc: Global,
    wtr: &mut Writer<Vec<u8>>,
    known: &Known,
    rule: AnyRule,
    kept: &KeptSubject,
    detail: &Option<Vec<u8>>,
) -> Result<(), AllocError>
    requires { IsReady wtr.old }
    ensures ready { OnOk result (IsReady wtr.new) }
    ensures row { (s : Subject) → IsKept kept.now s → OnOk result (Writes wtr.old wtr.new (line_of (has_mark known.now) rule s (detail_seen detail.now))) }
{
    match detail {
        Some(detail) => write_found(alloc, wtr, known, rule, kept, detail),
        None => Ok(()),
    }
}

fn write_found(
    alloc: Global,
    wtr: &mut Writer<Vec<u8>>,
    known: &Known,
    rule: AnyRule,
    kept: &KeptSubject,
    detail: &[u8],
) -> Result<(), AllocError>
    requires { IsReady wtr.old }
    ensures ready { OnOk result (IsReady wtr.new) }
    ensures row { (s : Subject) → IsKept kept.now s → OnOk result (Writes wtr.old wtr.new (row_of (has_mark known.now) (fields_of rule s detail.now))) }
{
    let crs = crs_of(alloc, kept)?;
    write_told(alloc, wtr, known, rule, &kept.label, crs.as_ref(), detail)
}

fn write_told(
    alloc: Global,
    wtr: &mut Writer<Vec<u8>>,
    known: &Known,
    rule: AnyRule,
    label: &[u8],
    crs: &Crs,
    detail: &[u8],
) -> Result<(), AllocError>
    requires { IsReady wtr.old }
    ensures { OnOk result (Writes wtr.old wtr.new (row_of (has_mark known.now) (fields_in rule label.now crs.now.parts detail.now))) }
{
    let rule = copied(alloc, rule.name().as_bytes())?;
    let label = copied(alloc, label)?;
    let code = code_of(alloc, crs)?;
    let detail = copied(alloc, detail)?;
    write_unless_known(
        alloc,
        wtr,
        known,
        &[
            &rule,
            &label,
            authority_of(crs),
            &code,
            crs.parts().name().as_bytes(),
            &detail,
        ],
    )
}

fn write_unless_known(
    alloc: Global,
    wtr: &mut Writer<Vec<u8>>,
    known: &Known,
    fields: &[&[u8]],
) -> Result<(), AllocError>
    requires { IsReady wtr.old }
    ensures { OnOk result (Writes wtr.old wtr.new (row_of (has_mark known.now) (map (λ field. field.now) fields.now))) }
{
    let mark = mark_of(alloc, fields)?;
    if known.has(&mark) {
        return Ok(());
    }
    write_fields(wtr, fields)?;
    Ok(())
}
