//! The steps of `lint`.

ghost use Rattle.std.specs.Prelude.{List, IfOk, IfErr};
ghost use Rattle.reg_lint.specs.Subjects.{Subject, AreKept};
ghost use Rattle.reg_lint.specs.EngineLint.{IsLintOf, IsLinted, IsUnlinted, AreLinted, AreUnlinted};

use crate::engine::looked::read_looked;
use crate::kept::KeptSubject;
use crate::known::known_rows;
use crate::lines::{has_rows, lint_text};
use crate::live::subjects_with;
use crate::rule::AnyRule;
use byte_io::{Sink, Source, write_all};
use reg_engine::{CliFault, OutFault, Store};
use reg_op::Status;
use std::alloc::{AllocError, Global};
use std::mem::forget;

/// Loads the register, reads the rows that were looked at before from the file after it, and writes the other rows of the entries
/// that are not retired, have the status, if one is asked for, and break one of the rules. Returns whether there are any. The register is freed before the rules are looked
/// at. What is kept of its entries is not freed, since the process ends behind it.
pub fn run_lint<T: Store, S: Source, K: Sink>(
    alloc: Global,
    store: &mut T,
    rules: &[AnyRule],
    status: Option<Status>,
    known: &mut S,
    sink: &mut K,
) -> Result<bool, CliFault>
    ensures same { T.same store.old store.new }
    ensures printed { IfOk result (IsLinted rules.now status (T.around store.old store.new) (S.state known.old) (S.state known.new) (K.state sink.old) (K.state sink.new)) }
    ensures fault { IfErr result (IsUnlinted rules.now status (T.around store.old store.new) (T.next store.old) (S.state known.old) (S.state known.new) (K.state sink.old) (K.state sink.new)) }
{
    let next = store.next();
    let register = match store.load(alloc) {
        Ok(register) => register,
        Err(fault) => return Err(fault),
    };
    let kept = match subjects_with(alloc, &register, status) {
        Ok(kept) => kept,
        Err(_) => return Err(CliFault::Memory),
    };
    drop(register);
    match run_lint_kept(alloc, &kept, rules, next, known, sink) {
        Ok(any) => {
            forget(kept);
            Ok(any)
        }
        Err(fault) => Err(fault),
    }
}

/// The same of the reference systems of which this is kept. The file of the rows that were looked at before has this number.
pub fn run_lint_kept<S: Source, K: Sink>(
    alloc: Global,
    kept: &[KeptSubject],
    rules: &[AnyRule],
    number: usize,
    known: &mut S,
    sink: &mut K,
) -> Result<bool, CliFault>
    ensures printed { (ss : List Subject) → AreKept kept.now ss → IfOk result (AreLinted rules.now ss (S.state known.old) (S.state known.new) (K.state sink.old) (K.state sink.new)) }
    ensures fault { (ss : List Subject) → AreKept kept.now ss → IfErr result (AreUnlinted rules.now ss number (S.state known.old) (S.state known.new) (K.state sink.old) (K.state sink.new)) }
{
    let bytes = match read_looked(alloc, number, known) {
        Ok(bytes) => bytes,
        Err(fault) => return Err(fault),
    };
    let text = match lint_beside(alloc, kept, rules, &bytes) {
        Ok(text) => text,
        Err(_) => return Err(CliFault::Memory),
    };
    match write_all(sink, &text) {
        Ok(()) => Ok(has_rows(&text)),
        Err(fault) => Err(CliFault::Out(OutFault::WriteFailed(fault.written))),
    }
}

fn lint_beside(
    alloc: Global,
    kept: &[KeptSubject],
    rules: &[AnyRule],
    known: &[u8],
) -> Result<Vec<u8>, AllocError>
    ensures { (ss : List Subject) → AreKept kept.now ss → IfOk result (λ text. IsLintOf rules.now known.now ss text.items) }
{
    let known = known_rows(alloc, known)?;
    let text = lint_text(alloc, &known, rules, kept)?;
    Ok(text)
}
