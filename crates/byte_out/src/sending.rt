//! Writes all chunks of a file.

ghost use Rattle.std.specs.Prelude.{◌≡◌, OnOk, IfErr};
ghost use Rattle.byte_io.specs.Whole.{WritesAll, IsCutAt};
ghost use Rattle.byte_out.specs.Place.{IfReported, IsFilled};

use crate::chunks::Chunks;
use crate::place::Place;
use byte_io::{Sink, WriteFault, write_all};

/// Writes all the bytes to a sink.
pub fn write_chunks<K: Sink, C: Chunks>(sink: &mut K, content: &mut C) -> Result<(), WriteFault>
    ensures ok { OnOk result (WritesAll (C.bytes content.old) (K.state sink.old) (K.state sink.new)) }
    ensures fault { IfErr result (λ e. IsCutAt e.written (C.bytes content.old) (K.state sink.old) (K.state sink.new)) }
    ensures bytes { C.bytes content.new ≡ C.bytes content.old }
{
    let _whole = content.len();
    content.restart();
    let mut written = 0usize;
    while content.advance() {
        let chunk = content.chunk();
        if let Err(fault) = write_all(sink, chunk) {
            return Err(WriteFault {
                written: written + fault.written,
            });
        }
        written += chunk.len();
    }
    Ok(())
}

/// Writes all the bytes to the new file of a place.
pub fn fill<P: Place, C: Chunks>(place: &mut P, content: &mut C) -> Result<(), WriteFault>
    ensures ok { OnOk result (WritesAll (C.bytes content.old) (P.state place.old).sink (P.state place.new).sink) }
    ensures fault { IfErr result
        (λ e. IsCutAt e.written (C.bytes content.old) (P.state place.old).sink (P.state place.new).sink) }
    ensures files { IfReported (IsFilled result (C.bytes content.old)) (P.state place.old).files (P.state place.new).files }
    ensures bytes { C.bytes content.new ≡ C.bytes content.old }
{
    let _whole = content.len();
    content.restart();
    let mut written = 0usize;
    while content.advance() {
        let chunk = content.chunk();
        if let Err(fault) = place.write(chunk) {
            return Err(WriteFault {
                written: written + fault.written,
            });
        }
        written += chunk.len();
    }
    Ok(())
}
