//! The command `wkt`.

ghost use Rattle.std.specs.Prelude.{IfOk, OnOk, IfErr};
ghost use Rattle.reg_engine.specs.Store.{of_file, IsPrinted, IsUnprinted};
ghost use Rattle.reg_commands.specs.Report.{Lacks};
ghost use Rattle.reg_commands.specs.Export.{IsDefinitionText, IsDefinitionLine, IsLineOf};

use byte_io::{Sink, Source};
use reg_engine::{CliFault, OfFile, Print, Refusal, run_print};
use reg_office::OfficeFault;
use reg_op::OpId;
use reg_state::Register;
use std::alloc::{AllocError, Global};
use wkt_crs::{Definition, write_pretty};

/// The layout of a text.
#[derive(Clone, Copy, Debug, PartialEq, Eq)]
pub enum Form {
    Canonical,
    Indented,
}

/// Prints the text of the entry and a newline.
#[derive(Drop)]
pub struct Wkt {
    pub entry: OpId,
    pub form: Form,
}

impl Print for Wkt {
    ghost use Rattle.reg_commands.specs.Report.{Lacks};
    ghost use Rattle.reg_commands.specs.Export.{IsLineOf};

    ghost prints = { λ c. λ x. λ text. IsLineOf c.form x c.entry text };

    ghost refuses = { λ c. λ x. λ f. Lacks c.entry x f };

    fn text(&self, alloc: Global, register: &Register) -> Result<Vec<u8>, CliFault> {
        let Some(definition) = register.definition(self.entry) else {
            return Err(CliFault::Refused(Refusal::Office(OfficeFault::UnknownEntry(self.entry))));
        };
        match line_in(alloc, self.form, definition) {
            Ok(line) => Ok(line),
            Err(_) => Err(CliFault::Memory),
        }
    }
}

/// Reads the register of the source (file 1), and writes the text of the entry and a newline.
pub fn run_wkt<S: Source, K: Sink>(
    alloc: Global,
    source: &mut S,
    entry: OpId,
    form: Form,
    sink: &mut K,
) -> Result<(), CliFault>
    ensures shown { OnOk result (IsPrinted (of_file (S.state source.old) (S.state source.new)) (λ x. IsLineOf form x entry) (K.state sink.old) (K.state sink.new)) }
    ensures fault { IfErr result (IsUnprinted (of_file (S.state source.old) (S.state source.new)) (λ x. IsLineOf form x entry) (Lacks entry) (K.state sink.old) (K.state sink.new)) }
{
    match run_print(alloc, &mut OfFile { source }, &Wkt { entry, form }, sink) {
        Ok(()) => Ok(()),
        Err(fault) => Err(fault),
    }
}

/// The text of the definition in this form, and a newline.
fn line_in(alloc: Global, form: Form, definition: &Definition) -> Result<Vec<u8>, AllocError>
    ensures { IfOk result (λ line. IsDefinitionLine form definition.now line.items) }
{
    let mut line = text_in(alloc, form, definition)?;
    line.push(b'\n')?;
    Ok(line)
}

// The text of the definition in this form. Only the indented one needs the value.
fn text_in(alloc: Global, form: Form, definition: &Definition) -> Result<Vec<u8>, AllocError>
    ensures { IfOk result (λ text. IsDefinitionText form definition.now text.items) }
{
    match form {
        Form::Canonical => {
            let text = Vec::from_slice(alloc, definition.as_bytes())?;
            Ok(text)
        }
        Form::Indented => {
            let crs = definition.crs(alloc)?;
            let text = write_pretty(alloc, &crs)?;
            Ok(text)
        }
    }
}
