//! Reports, written to a sink.

ghost use Rattle.std.specs.Prelude.{◌≡◌, IfOk, IfErr, OnOk};
ghost use Rattle.reg_report.specs.Reports.{IsReport, IsOpsReport, Reports, IsReportFault};

use crate::conflict::conflicts;
use crate::conflict_lines::conflicts_text;
use crate::entry_lines::entries_text;
use crate::gap::gaps;
use crate::lines::{awaited_text, gaps_text, ops_text};
use crate::named::awaited;
use crate::row::rows;
use byte_io::{Sink, write_all};
use reg_state::Register;
use std::alloc::{AllocError, Global};
use std::fmt;

/// The kind of a report.
#[derive(Clone, Copy, Debug, PartialEq, Eq)]
pub enum ReportKind {
    Entries,
    Conflicts,
    Awaited,
    Gaps,
}

/// Why a report was not written completely.
#[derive(Clone, Copy, Debug, PartialEq, Eq)]
pub enum ReportFault {
    /// Exactly this many bytes were written.
    WriteFailed(usize),
    /// An allocation failed, and nothing was written.
    Memory,
}

impl ReportFault {
    ghost use Rattle.reg_report.specs.Names.{report_name, report_place};

    /// The name that is printed.
    pub fn name(self) -> &'static str
        ensures { result.now ≡ report_name self }
    {
        match self {
            ReportFault::WriteFailed(_) => "WriteFailed",
            ReportFault::Memory => "Memory",
        }
    }

    /// The number of bytes that were written before it, if it has a place.
    pub fn place(self) -> Option<usize>
        ensures { result ≡ report_place self }
    {
        match self {
            ReportFault::WriteFailed(place) => Some(place),
            ReportFault::Memory => None,
        }
    }
}

impl fmt::Display for ReportFault {
    fn fmt<W: fmt::Write>(&self, f: &mut fmt::Formatter<W>) -> fmt::Result {
        let name = self.name();
        match self.place() {
            Some(place) => write!(f, "{name} at {place}"),
            None => f.write_str("out of memory"),
        }
    }
}

fn entries_report(alloc: Global, register: &Register) -> Result<Vec<u8>, AllocError>
    ensures { IfOk result (λ text. IsReport ReportKind.Entries register.now text.items) }
{
    let rows = rows(alloc, register)?;
    let text = entries_text(alloc, &rows)?;
    Ok(text)
}

fn conflicts_report(alloc: Global, register: &Register) -> Result<Vec<u8>, AllocError>
    ensures { IfOk result (λ text. IsReport ReportKind.Conflicts register.now text.items) }
{
    let conflicts = conflicts(alloc, register)?;
    let text = conflicts_text(alloc, &conflicts)?;
    Ok(text)
}

fn awaited_report(alloc: Global, register: &Register) -> Result<Vec<u8>, AllocError>
    ensures { IfOk result (λ text. IsReport ReportKind.Awaited register.now text.items) }
{
    let ids = awaited(alloc, register)?;
    let text = awaited_text(alloc, &ids)?;
    Ok(text)
}

fn gaps_report(alloc: Global, register: &Register) -> Result<Vec<u8>, AllocError>
    ensures { IfOk result (λ text. IsReport ReportKind.Gaps register.now text.items) }
{
    let gaps = gaps(alloc, register)?;
    let text = gaps_text(alloc, &gaps)?;
    Ok(text)
}

/// A report as comma-separated text.
pub fn report_text(
    alloc: Global,
    register: &Register,
    kind: ReportKind,
) -> Result<Vec<u8>, AllocError>
    ensures { IfOk result (λ text. IsReport kind register.now text.items) }
{
    match kind {
        ReportKind::Entries => entries_report(alloc, register),
        ReportKind::Conflicts => conflicts_report(alloc, register),
        ReportKind::Awaited => awaited_report(alloc, register),
        ReportKind::Gaps => gaps_report(alloc, register),
    }
}

/// Writes a report as comma-separated text, made in memory first.
pub fn report<K: Sink>(
    alloc: Global,
    register: &Register,
    kind: ReportKind,
    sink: &mut K,
) -> Result<(), ReportFault>
    ensures ok { OnOk result (Reports (IsReport kind register.now) (K.state sink.old) (K.state sink.new)) }
    ensures fault { IfErr result (IsReportFault (IsReport kind register.now) (K.state sink.old) (K.state sink.new)) }
{
    let text = match report_text(alloc, register, kind) {
        Ok(text) => text,
        Err(_) => return Err(ReportFault::Memory),
    };
    match write_all(sink, &text) {
        Ok(()) => Ok(()),
        Err(fault) => Err(ReportFault::WriteFailed(fault.written)),
    }
}

/// Writes the operations that a register keeps as comma-separated text, made in memory first.
pub fn report_ops<K: Sink>(
    alloc: Global,
    register: &Register,
    sink: &mut K,
) -> Result<(), ReportFault>
    ensures ok { OnOk result (Reports (IsOpsReport register.now) (K.state sink.old) (K.state sink.new)) }
    ensures fault { IfErr result (IsReportFault (IsOpsReport register.now) (K.state sink.old) (K.state sink.new)) }
{
    let text = match ops_text(alloc, register.ops().as_slice()) {
        Ok(text) => text,
        Err(_) => return Err(ReportFault::Memory),
    };
    match write_all(sink, &text) {
        Ok(()) => Ok(()),
        Err(fault) => Err(ReportFault::WriteFailed(fault.written)),
    }
}
