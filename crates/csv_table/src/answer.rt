//! The table of a command's rows, and the command's answer.

ghost use Rattle.std.specs.Prelude.{◌≡◌, IfOk, IfErr};
ghost use Rattle.csv_table.specs.Answer.{IsTold, IsUntold};

use crate::lines::table;
use byte_io::{Sink, write_all};
use std::alloc::Global;

/// Why the table of some rows was not written.
#[derive(Clone, Copy, Debug, PartialEq, Eq)]
pub enum TableFault {
    /// Only these many bytes of it were written.
    WriteFailed(usize),
    Memory,
}

/// Writes the table of the rows that a command made, and returns the answer that the command gave for them: with its table or with
/// its rows, a command has one answer, and so one exit status.
pub fn told_as_table<A: Drop, K: Sink>(
    alloc: Global,
    rows: &[u8],
    answer: A,
    sink: &mut K,
) -> Result<A, TableFault>
    ensures told { IfOk result (λ same. (same ≡ answer) × IsTold rows.now (K.state sink.old) (K.state sink.new)) }
    ensures fault { IfErr result (IsUntold rows.now (K.state sink.old) (K.state sink.new)) }
{
    let text = match table(alloc, rows) {
        Ok(text) => text,
        Err(_) => return Err(TableFault::Memory),
    };
    match write_all(sink, &text) {
        Ok(()) => Ok(answer),
        Err(fault) => Err(TableFault::WriteFailed(fault.written)),
    }
}
