//! The steps of a command that prints differences, and returns whether there are any.

ghost use Rattle.std.specs.Prelude.{◌≡◌, ◌≢◌, ◌↔◌, [], ℕ, List, IsTrue, IfOk, IfErr};
ghost use Rattle.reg_engine.specs.Store.{IsPrinted, IsUnprinted};
ghost use Rattle.reg_texts.specs.Differs.{PrintsAnd};

use byte_io::{Sink, write_all};
use reg_engine::{CliFault, OutFault, Print, Store};
use std::alloc::Global;

/// Loads the register, writes the command's text to the sink, and returns whether the text has any byte.
pub fn run_differs<T: Store, C: Print, K: Sink>(
    alloc: Global,
    store: &mut T,
    command: &C,
    sink: &mut K,
) -> Result<bool, CliFault>
    ensures same { T.same store.old store.new }
    ensures printed { IfOk result (λ any. IsPrinted (T.around store.old store.new) (PrintsAnd (C.prints command.now) any) (K.state sink.old) (K.state sink.new)) }
    ensures fault { IfErr result (IsUnprinted (T.around store.old store.new) (C.prints command.now) (C.refuses command.now) (K.state sink.old) (K.state sink.new)) }
{
    let register = match store.load(alloc) {
        Ok(register) => register,
        Err(fault) => return Err(fault),
    };
    let text = match command.text(alloc, &register) {
        Ok(text) => text,
        Err(fault) => return Err(fault),
    };
    match write_all(sink, &text) {
        Ok(()) => Ok(has_any(&text)),
        Err(fault) => Err(CliFault::Out(OutFault::WriteFailed(fault.written))),
    }
}

/// Whether the text has any byte.
pub fn has_any(text: &[u8]) -> bool
    ensures { IsTrue result ↔ (text.now ≢ []) }
{
    !text.is_empty()
}
