//! Reports: of entries, conflicts, awaited ids and gaps; of operations; of one entry.

ghost use Rattle.std.specs.Prelude.{OnOk, IfErr};
ghost use Rattle.reg_report.specs.Reports.{IsReport, IsOpsReport};
ghost use Rattle.reg_engine.specs.Store.{of_file, IsPrinted, IsUnprinted, Never};
ghost use Rattle.reg_commands.specs.Report.{IsRowOf, Lacks};

use byte_io::{Sink, Source};
use reg_engine::{CliFault, OfFile, Print, Refusal, run_print};
use reg_office::OfficeFault;
use reg_op::OpId;
use reg_report::{ReportKind, entry_text, ops_text, report_text};
use reg_state::Register;
use std::alloc::Global;

/// Prints a report of the register.
#[derive(Drop)]
pub struct Report {
    pub kind: ReportKind,
}

impl Print for Report {
    ghost use Rattle.reg_report.specs.Reports.{IsReport};
    ghost use Rattle.reg_engine.specs.Store.{Never};

    ghost prints = { λ c. λ x. λ text. IsReport c.kind x text };

    ghost refuses = { λ c. λ x. λ f. Never x f };

    fn text(&self, alloc: Global, register: &Register) -> Result<Vec<u8>, CliFault> {
        match report_text(alloc, register, self.kind) {
            Ok(text) => Ok(text),
            Err(_) => Err(CliFault::Memory),
        }
    }
}

/// Prints a line for each operation that the register keeps.
#[derive(Drop)]
pub struct OpsReport;

impl Print for OpsReport {
    ghost use Rattle.reg_report.specs.Reports.{IsOpsReport};
    ghost use Rattle.reg_engine.specs.Store.{Never};

    ghost prints = { λ c. λ x. λ text. IsOpsReport x text };

    ghost refuses = { λ c. λ x. λ f. Never x f };

    fn text(&self, alloc: Global, register: &Register) -> Result<Vec<u8>, CliFault> {
        match ops_text(alloc, register.ops().as_slice()) {
            Ok(text) => Ok(text),
            Err(_) => Err(CliFault::Memory),
        }
    }
}

/// Prints the line of one entry in the report of entries, after the report's header.
#[derive(Drop)]
pub struct Show {
    pub entry: OpId,
}

impl Print for Show {
    ghost use Rattle.reg_commands.specs.Report.{IsRowOf, Lacks};

    ghost prints = { λ c. λ x. λ text. IsRowOf c.entry x text };

    ghost refuses = { λ c. λ x. λ f. Lacks c.entry x f };

    fn text(&self, alloc: Global, register: &Register) -> Result<Vec<u8>, CliFault> {
        let Some(_) = register.definition(self.entry) else {
            return Err(CliFault::Refused(Refusal::Office(OfficeFault::UnknownEntry(self.entry))));
        };
        match entry_text(alloc, register, self.entry) {
            Ok(text) => Ok(text),
            Err(_) => Err(CliFault::Memory),
        }
    }
}

/// Reads the register of the source (file 1), and writes a report of it.
pub fn run_report<S: Source, K: Sink>(
    alloc: Global,
    source: &mut S,
    kind: ReportKind,
    sink: &mut K,
) -> Result<(), CliFault>
    ensures reported { OnOk result (IsPrinted (of_file (S.state source.old) (S.state source.new)) (IsReport kind) (K.state sink.old) (K.state sink.new)) }
    ensures fault { IfErr result (IsUnprinted (of_file (S.state source.old) (S.state source.new)) (IsReport kind) Never (K.state sink.old) (K.state sink.new)) }
{
    match run_print(alloc, &mut OfFile { source }, &Report { kind }, sink) {
        Ok(()) => Ok(()),
        Err(fault) => Err(fault),
    }
}

/// Reads the register of the source (file 1), and writes a line for each operation that it keeps.
pub fn run_ops<S: Source, K: Sink>(
    alloc: Global,
    source: &mut S,
    sink: &mut K,
) -> Result<(), CliFault>
    ensures reported { OnOk result (IsPrinted (of_file (S.state source.old) (S.state source.new)) IsOpsReport (K.state sink.old) (K.state sink.new)) }
    ensures fault { IfErr result (IsUnprinted (of_file (S.state source.old) (S.state source.new)) IsOpsReport Never (K.state sink.old) (K.state sink.new)) }
{
    match run_print(alloc, &mut OfFile { source }, &OpsReport, sink) {
        Ok(()) => Ok(()),
        Err(fault) => Err(fault),
    }
}

/// Reads the register of the source (file 1), and writes the line of one entry after the header.
pub fn run_show<S: Source, K: Sink>(
    alloc: Global,
    source: &mut S,
    entry: OpId,
    sink: &mut K,
) -> Result<(), CliFault>
    ensures reported { OnOk result (IsPrinted (of_file (S.state source.old) (S.state source.new)) (IsRowOf entry) (K.state sink.old) (K.state sink.new)) }
    ensures fault { IfErr result (IsUnprinted (of_file (S.state source.old) (S.state source.new)) (IsRowOf entry) (Lacks entry) (K.state sink.old) (K.state sink.new)) }
{
    match run_print(alloc, &mut OfFile { source }, &Show { entry }, sink) {
        Ok(()) => Ok(()),
        Err(fault) => Err(fault),
    }
}
