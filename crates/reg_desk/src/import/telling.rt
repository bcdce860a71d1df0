//! Writing the lines of an import, which are packed.

ghost use Rattle.std.specs.Prelude.{OnOk, IfErr};
ghost use Rattle.byte_io.specs.Whole.{WritesAll};
ghost use Rattle.reg_op.specs.Contents.{Content};
ghost use Rattle.reg_engine.specs.Store.{AreCut, IsTold, IsUntold};

use byte_io::Sink;
use byte_packed::PackedRows;
use reg_engine::{CliFault, Keep, OutFault};
use reg_state::Register;
use std::alloc::Global;

/// Writes the lines to the sink.
pub fn tell<K: Sink>(lines: &PackedRows, sink: &mut K) -> Result<(), CliFault>
    ensures written { OnOk result (WritesAll lines.now (K.state sink.old) (K.state sink.new)) }
    ensures fault { IfErr result (AreCut lines.now (K.state sink.old) (K.state sink.new)) }
{
    match lines.write(sink) {
        Ok(()) => Ok(()),
        Err(fault) => Err(CliFault::Out(OutFault::WriteFailed(fault.written))),
    }
}

/// Keeps the register that a command made of the loaded one, and then writes the lines to the sink. It also writes them if the
/// register is kept, but a power cut may undo that.
pub fn keep_and_tell<T: Keep, K: Sink>(
    alloc: Global,
    store: &mut T,
    register: &Register,
    lines: &PackedRows,
    sink: &mut K,
) -> Result<(), CliFault>
    ensures same { T.same store.old store.new }
    ensures told { (first : T) (was : Content) → T.same first store.old → (T.around first store.old).came was
        → OnOk result (IsTold (T.around first store.new) was register.now lines.now (K.state sink.old) (K.state sink.new)) }
    ensures fault { (first : T) (was : Content) → T.same first store.old → (T.around first store.old).came was
        → IfErr result (IsUntold (T.around first store.new) was register.now lines.now (K.state sink.old) (K.state sink.new)) }
{
    if let Err(fault) = store.keep(alloc, register) {
        if !fault.is_after() {
            return Err(fault);
        }
        match tell(lines, sink) {
            Ok(()) => return Err(fault),
            Err(cut) => return Err(cut),
        }
    }
    match tell(lines, sink) {
        Ok(()) => Ok(()),
        Err(cut) => Err(cut),
    }
}
