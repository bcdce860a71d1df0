//! The command `status`.

ghost use Rattle.std.specs.Prelude.{◌≡◌, map, IfOk, OnOk, IfErr, OnErr};
ghost use Rattle.std.specs.List.{list_any};
ghost use Rattle.reg_desk.specs.Look.{AreLooks, AreLeft};
ghost use Rattle.reg_desk.specs.Status.{fault_at, is_any, is_unsettled, AreGood, IsFirstBad, IsSettled, IsTold, IsUntold, IsVerdict};

use crate::look::{Inspect, Look};
use crate::status_lines::status_text;
use byte_io::{Sink, write_all};
use reg_engine::{CliFault, OutFault, Refusal};
use reg_query::Figures;
use std::alloc::{AllocError, Global};

// The results of inspecting the files or shelves, in order.
fn looks_of<T: Inspect>(alloc: Global, files: &mut [T]) -> Result<Vec<Look>, AllocError>
    ensures looks { IfOk result (λ looks. AreLooks T.looks files.old files.new looks.items) }
    ensures stays { OnErr result (AreLeft T.looks T.stays files.old files.new) }
{
    let mut looks = Vec::new(alloc);
    for i in 0..files.len() {
        let look = match files[i].look(alloc) {
            Ok(look) => look,
            Err(_) => return Err(AllocError),
        };
        if let Err(_) = looks.push(look) {
            return Err(AllocError);
        }
    }
    Ok(looks)
}

// The fault of the file with this number, or of a shelf.
fn fault_at(number: usize, look: &Look) -> Option<CliFault>
    ensures { result ≡ fault_at number look.now }
{
    match look {
        Look::Figures { .. } => None,
        Look::NoRegister { bytes: _, fault } => {
            let fault = *fault;
            Some(CliFault::File { number, fault })
        }
        Look::Unread(fault) => {
            let fault = *fault;
            Some(CliFault::File { number, fault })
        }
        Look::NoShelf(problem) => Some(CliFault::Shelf(*problem)),
    }
}

// Whether something is in conflict, awaited or missing, or is not in order.
fn is_any(figures: &Figures) -> bool
    ensures { result ≡ is_any figures.now }
{
    figures.conflicts > 0
        || figures.awaited > 0
        || figures.gaps > 0
        || figures.duplicates > 0
        || figures.dangling > 0
}

fn is_unsettled(look: &Look) -> bool
    ensures { result ≡ is_unsettled look.now }
{
    match look {
        Look::Figures { bytes: _, figures } => { is_any(figures) }
        Look::NoRegister { .. } => false,
        Look::Unread(_) => false,
        Look::NoShelf(_) => false,
    }
}

// Checks that each has a register.
fn all_good(looks: &[Look]) -> Result<(), CliFault>
    ensures good { OnOk result (AreGood looks.now) }
    ensures fault { IfErr result (IsFirstBad looks.now) }
{
    let mut rest = looks;
    while let Some((look, others)) = rest.split_first() {
        let number = looks.len() - others.len();
        if let Some(fault) = fault_at(number, look) {
            return Err(fault);
        }
        rest = others;
    }
    Ok(())
}

fn any_unsettled(looks: &[Look]) -> bool
    ensures { result ≡ list_any is_unsettled looks.now }
{
    looks.iter().any(|look| is_unsettled(look))
}

// Checks that each has a register and, if asked, that it is settled.
fn verdict(looks: &[Look], settled: bool) -> Result<(), CliFault>
    ensures good { OnOk result (AreGood looks.now × IsSettled settled looks.now) }
    ensures fault { IfErr result (IsVerdict settled looks.now) }
{
    if let Err(fault) = all_good(looks) {
        return Err(fault);
    }
    if !settled {
        return Ok(());
    }
    if any_unsettled(looks) {
        return Err(CliFault::Refused(Refusal::Unsettled));
    }
    Ok(())
}

/// Inspects each file or shelf, and writes a line for each, with its name. There are as many names as files. Then it returns
/// the fault of the first that has no register. If `settled`, a register with keys in conflict, awaited ids, gaps, keys with equal texts or dangling entries is refused.
pub fn run_status<T: Inspect, K: Sink>(
    alloc: Global,
    names: &[&[u8]],
    files: &mut [T],
    settled: bool,
    sink: &mut K,
) -> Result<(), CliFault>
    ensures told { OnOk result (IsTold settled (map (λ n. n.now) names.now) (AreLooks T.looks files.old files.new) (K.state sink.old) (K.state sink.new)) }
    ensures fault { IfErr result (IsUntold settled (map (λ n. n.now) names.now) (AreLooks T.looks files.old files.new) (AreLeft T.looks T.stays files.old files.new)
        (K.state sink.old) (K.state sink.new)) }
{
    let Ok(looks) = looks_of(alloc, files) else {
        return Err(CliFault::Memory);
    };
    let Ok(text) = status_text(alloc, names, &looks) else {
        return Err(CliFault::Memory);
    };
    if let Err(fault) = write_all(sink, &text) {
        return Err(CliFault::Out(OutFault::WriteFailed(fault.written)));
    }
    verdict(&looks, settled)
}
