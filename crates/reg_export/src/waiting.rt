//! Texts that are written in parts: what is made of a text waits until it is enough.

ghost use Rattle.std.specs.Prelude.{◌≡◌, ◌++◌, [], ℕ, List, IfOk, OnOk, IfErr};
ghost use Rattle.byte_io.specs.Device.{SinkState};
ghost use Rattle.byte_io.specs.Whole.{WritesAll};
ghost use Rattle.reg_export.specs.Written.{IsSoFar, IsStopped};

use byte_io::{Sink, write_all};
use reg_engine::{CliFault, OutFault};

/// So many bytes are written at once, or more. So a text with fewer bytes is complete before its first byte is written.
const ENOUGH: usize = 1_048_576;

// Writes the bytes that wait. The answer is how many were written so far.
fn pass_on<K: Sink>(waiting: &mut Vec<u8>, written: usize, sink: &mut K) -> Result<usize, CliFault>
    ensures passed { (first : SinkState) (text : List ℕ) → IsSoFar first text (K.state sink.old) waiting.old.items written
        → IfOk result (IsSoFar first text (K.state sink.new) []) }
    ensures fault { (first : SinkState) (text : List ℕ) → IsSoFar first text (K.state sink.old) waiting.old.items written
        → IfErr result (IsStopped text first (K.state sink.new)) }
    ensures none { OnOk result (waiting.new.items ≡ []) }
{
    let Some(total) = written.checked_add(waiting.len()) else {
        return Err(CliFault::Memory);
    };
    match write_all(sink, waiting) {
        Ok(()) => {
            waiting.clear();
            Ok(total)
        }
        Err(fault) => Err(CliFault::Out(OutFault::WriteFailed(written + fault.written))),
    }
}

/// Writes the bytes that wait if they are enough. The answer is how many were written so far.
pub fn pass_enough<K: Sink>(
    waiting: &mut Vec<u8>,
    written: usize,
    sink: &mut K,
) -> Result<usize, CliFault>
    ensures passed { (first : SinkState) (text : List ℕ) → IsSoFar first text (K.state sink.old) waiting.old.items written
        → IfOk result (IsSoFar first text (K.state sink.new) waiting.new.items) }
    ensures fault { (first : SinkState) (text : List ℕ) → IsSoFar first text (K.state sink.old) waiting.old.items written
        → IfErr result (IsStopped text first (K.state sink.new)) }
{
    if waiting.len() < ENOUGH {
        return Ok(written);
    }
    match pass_on(waiting, written, sink) {
        Ok(total) => Ok(total),
        Err(fault) => Err(fault),
    }
}

/// Writes the bytes that wait, and the end of the text.
pub fn finish<K: Sink>(
    waiting: &mut Vec<u8>,
    end: &[u8],
    written: usize,
    sink: &mut K,
) -> Result<(), CliFault>
    ensures written { (first : SinkState) (text : List ℕ) → IsSoFar first text (K.state sink.old) waiting.old.items written
        → OnOk result (WritesAll (text ++ end.now) first (K.state sink.new)) }
    ensures fault { (first : SinkState) (text : List ℕ) → IsSoFar first text (K.state sink.old) waiting.old.items written
        → IfErr result (IsStopped (text ++ end.now) first (K.state sink.new)) }
{
    if let Err(_) = waiting.extend_from_slice(end) {
        return Err(CliFault::Memory);
    }
    match pass_on(waiting, written, sink) {
        Ok(_) => Ok(()),
        Err(fault) => Err(fault),
    }
}
