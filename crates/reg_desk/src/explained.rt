//! Explanations of the faults of commands.

ghost use Rattle.std.specs.Prelude.{◌≡◌, ◌⊎◌, IfOk, IfErr, OnOk, IsSome};
ghost use Rattle.reg_commands.specs.Devices.{devices};
ghost use Rattle.reg_commands.specs.Check.{IsPrinted, IsCheckFault};
ghost use Rattle.reg_engine.specs.declared.fault.CliFault.TheVariants as cli;
ghost use Rattle.reg_desk.specs.Explained.{IsExplained, note_text, problem_of, text_problem};

use byte_io::{Sink, Source};
use reg_commands::run_check;
use reg_engine::{CliFault, Refusal};
use std::alloc::{AllocError, Global};
use wkt_crs::{DefinitionFault, Unspelled};
use wkt_explain::{Recorded, explain_text};

/// Why a command failed, with an explanation if the text is the reason.
#[derive(Drop)]
pub struct Explained {
    pub fault: CliFault,
    pub note: Vec<u8>,
}

// The fault of a text, if that is the reason of the refusal.
fn text_problem(refusal: Refusal) -> Option<DefinitionFault>
    ensures { result ≡ text_problem refusal }
{
    match refusal {
        Refusal::Text(fault) => Some(DefinitionFault::Read(Unspelled::Text(fault))),
        Refusal::Slot(fault) => Some(DefinitionFault::Read(Unspelled::Slot(fault))),
        Refusal::Broken { condition, place } => {
            Some(DefinitionFault::Read(Unspelled::Broken { condition, place }))
        }
        Refusal::NoIdentifier => Some(DefinitionFault::NoIdentifier),
        Refusal::CanonicalTooLong => Some(DefinitionFault::CanonicalTooLong),
        _ => None,
    }
}

/// The fault of the text that a command read, if that is its fault.
pub fn problem_of(fault: &CliFault) -> Option<DefinitionFault>
    ensures { result ≡ problem_of fault.now }
{
    match fault {
        CliFault::Refused(refusal) => text_problem(*refusal),
        _ => None,
    }
}

fn note_of<S: Source>(
    alloc: Global,
    name: &str,
    text: &Recorded<S>,
    problem: DefinitionFault,
) -> Result<Vec<u8>, AllocError>
    ensures { IfOk result (λ note. note.items ≡ note_text name.now (⟦<Recorded<S> as Source>⟧.state text.now).given (Some problem)) }
{
    let Some(bytes) = text.bytes() else {
        return Err(AllocError);
    };
    explain_text(alloc, name, bytes, problem)
}

/// The fault of a command, with an explanation of the text from the file with this name, if the text is the reason. If
/// there is no memory for it, the fault is `Memory`.
pub fn explained_fault<S: Source>(
    alloc: Global,
    name: &str,
    text: &Recorded<S>,
    fault: CliFault,
) -> Explained
    ensures fault { (result.fault ≡ fault) ⊎ ((result.fault ≡ cli.Memory) × IsSome (problem_of fault)) }
    ensures note { result.note.items ≡ note_text name.now (⟦<Recorded<S> as Source>⟧.state text.now).given (problem_of result.fault) }
{
    let Some(problem) = problem_of(&fault) else {
        return Explained {
            fault,
            note: Vec::new(alloc),
        };
    };
    match note_of(alloc, name, text, problem) {
        Ok(note) => Explained { fault, note },
        Err(_) => Explained {
            fault: CliFault::Memory,
            note: Vec::new(alloc),
        },
    }
}

/// `run_check` with an explanation of a refused text, whose file has this name.
pub fn run_check_explained<S: Source, K: Sink>(
    alloc: Global,
    name: &str,
    text: &mut Recorded<S>,
    sink: &mut K,
) -> Result<(), Explained>
    ensures printed { OnOk result (IsPrinted
        (devices (⟦<Recorded<S> as Source>⟧.state text.old) (K.state sink.old))
        (devices (⟦<Recorded<S> as Source>⟧.state text.new) (K.state sink.new))) }
    ensures fault { IfErr result (λ e. IsExplained (IsCheckFault
        (devices (⟦<Recorded<S> as Source>⟧.state text.old) (K.state sink.old))
        (devices (⟦<Recorded<S> as Source>⟧.state text.new) (K.state sink.new))) e.fault) }
    ensures note { IfErr result (λ e. e.note.items ≡ note_text name.now (⟦<Recorded<S> as Source>⟧.state text.new).given (problem_of e.fault)) }
{
    match run_check(alloc, text, sink) {
        Ok(()) => Ok(()),
        Err(fault) => Err(explained_fault(alloc, name, text, fault)),
    }
}
