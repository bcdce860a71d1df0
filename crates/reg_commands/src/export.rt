//! The command `export`.

ghost use Rattle.std.specs.Prelude.{◌≡◌, ◌++◌, IfOk, OnOk, IfErr};
ghost use Rattle.reg_engine.specs.Store.{of_file, IsPrinted, IsUnprinted, Never};
ghost use Rattle.reg_commands.specs.Export.{op_line, IsExport};
ghost use Rattle.reg_report.specs.Exports.{export, is_retired};
ghost use Rattle.reg_op.specs.Status.{status};

use byte_io::{Sink, Source};
use reg_engine::{CliFault, OfFile, Print, run_print};
use reg_op::{Op, OpBody, Status};
use reg_state::Register;
use std::alloc::{AllocError, Global};

/// Prints the canonical text of each entry that is not retired, by id, each with a newline.
#[derive(Drop)]
pub struct Export;

impl Print for Export {
    ghost use Rattle.reg_commands.specs.Export.{IsExport};
    ghost use Rattle.reg_engine.specs.Store.{Never};

    ghost prints = { λ c. λ x. λ text. IsExport x text };

    ghost refuses = { λ c. λ x. λ f. Never x f };

    fn text(&self, alloc: Global, register: &Register) -> Result<Vec<u8>, CliFault> {
        match lines_of(alloc, register) {
            Ok(lines) => Ok(lines),
            Err(_) => Err(CliFault::Memory),
        }
    }
}

/// Reads the register of the source (file 1), and writes the canonical text of each entry that is not retired, by id,
/// each with a newline.
pub fn run_export<S: Source, K: Sink>(
    alloc: Global,
    source: &mut S,
    sink: &mut K,
) -> Result<(), CliFault>
    ensures exported { OnOk result (IsPrinted (of_file (S.state source.old) (S.state source.new)) IsExport (K.state sink.old) (K.state sink.new)) }
    ensures fault { IfErr result (IsUnprinted (of_file (S.state source.old) (S.state source.new)) IsExport Never (K.state sink.old) (K.state sink.new)) }
{
    match run_print(alloc, &mut OfFile { source }, &Export, sink) {
        Ok(()) => Ok(()),
        Err(fault) => Err(fault),
    }
}

/// The lines of all entries that are not retired.
fn lines_of(alloc: Global, register: &Register) -> Result<Vec<u8>, AllocError>
    ensures { IfOk result (λ lines. lines.items ≡ export register.now.ops) }
{
    let ops = register.ops().as_slice();
    // All reserved at once: a growing vector would take up to three times the length of the lines.
    let mut lines = Vec::with_capacity(alloc, room(ops))?;
    for op in ops {
        push_line(&mut lines, register, op)?;
    }
    Ok(lines)
}

// The number of bytes in the lines of all entries.
fn room(ops: &[Op]) -> usize {
    let mut room = 0usize;
    for op in ops {
        if let OpBody::Enter(definition) = op.body() {
            room = room.saturating_add(definition.as_bytes().len());
            room = room.saturating_add(1);
        }
    }
    room
}

// Appends the line of the entry, if the operation entered one that is not retired.
fn push_line(lines: &mut Vec<u8>, register: &Register, op: &Op) -> Result<(), AllocError>
    ensures { OnOk result (lines.new.items ≡ lines.old.items ++ op_line register.now.ops op.now) }
{
    let OpBody::Enter(definition) = op.body() else {
        return Ok(());
    };
    if is_retired(register, op) {
        return Ok(());
    }
    lines.extend_from_slice(definition.as_bytes())?;
    lines.push(b'\n')?;
    Ok(())
}

fn is_retired(register: &Register, op: &Op) -> bool
    ensures { result ≡ is_retired (status register.now.ops op.now.id) }
{
    match register.status(op.id()) {
        Some(Status::Retired) => true,
        _ => false,
    }
}
