//! The report of one entry.

ghost use Rattle.std.specs.Prelude.{◌≡◌, List, map, filter, IfOk, OnOk, IfErr};
ghost use Rattle.reg_op.specs.Ids.{is_same};
ghost use Rattle.reg_op.specs.Rows.{Row as RowOf, rows};
ghost use Rattle.reg_report.specs.Seen.{row_seen};
ghost use Rattle.reg_report.specs.Reports.{IsEntryReport, Reports, IsReportFault};

use crate::entry_lines::entries_text;
use crate::marks::{leading, marks_of, skip_below};
use crate::row::{Row, push_row};
use crate::writing::ReportFault;
use byte_io::{Sink, write_all};
use reg_op::{Op, OpId};
use reg_state::Register;
use std::alloc::{AllocError, Global};

fn is_of(op: &Op, entry: OpId) -> bool
    ensures { result ≡ is_same entry op.now.id }
{
    entry.is_same(&op.id())
}

// The entry's row, if it has one.
fn rows_of(alloc: Global, register: &Register, entry: OpId) -> Result<Vec<Row>, AllocError>
    ensures { IfOk result (λ made. map row_seen made.items ≡ filter (λ (r : RowOf). is_same entry r.entry) (rows register.now.ops)) }
{
    let ops = register.ops().as_slice();
    let marks = marks_of(alloc, ops)?;
    let own = leading(skip_below(&marks, entry), entry);
    let mut made = Vec::new(alloc);
    for op in ops {
        if is_of(op, entry) {
            push_row(alloc, &mut made, own, op)?;
        }
    }
    Ok(made)
}

/// The line of one entry in the report of entries, with the header. Without such an entry, only the header.
pub fn entry_text(alloc: Global, register: &Register, entry: OpId) -> Result<Vec<u8>, AllocError>
    ensures { IfOk result (λ text. IsEntryReport entry register.now text.items) }
{
    let rows = rows_of(alloc, register, entry)?;
    let text = entries_text(alloc, &rows)?;
    Ok(text)
}

/// Writes this text to a sink.
pub fn report_entry<K: Sink>(
    alloc: Global,
    register: &Register,
    entry: OpId,
    sink: &mut K,
) -> Result<(), ReportFault>
    ensures ok { OnOk result (Reports (IsEntryReport entry register.now) (K.state sink.old) (K.state sink.new)) }
    ensures fault { IfErr result (IsReportFault (IsEntryReport entry register.now) (K.state sink.old) (K.state sink.new)) }
{
    let text = match entry_text(alloc, register, entry) {
        Ok(text) => text,
        Err(_) => return Err(ReportFault::Memory),
    };
    match write_all(sink, &text) {
        Ok(()) => Ok(()),
        Err(fault) => Err(ReportFault::WriteFailed(fault.written)),
    }
}
