//! Writes of all bytes to a sink.

ghost use Rattle.std.specs.Prelude.{OnOk, IfErr};
ghost use Rattle.byte_io.specs.Whole.{WritesAll, IsCutAt};

use crate::fault::WriteFault;
use crate::sink::Sink;

/// Writes all the bytes, however the sink splits them. If a write takes none, the call fails.
pub fn write_all<K: Sink>(sink: &mut K, bytes: &[u8]) -> Result<(), WriteFault>
    ensures ok { OnOk result (WritesAll bytes.now (K.state sink.old) (K.state sink.new)) }
    ensures fault { IfErr result (λ e. IsCutAt e.written bytes.now (K.state sink.old) (K.state sink.new)) }
{
    let mut written = 0usize;
    while written < bytes.len() {
        let Ok(n) = sink.write_some(&bytes[written..]) else {
            return Err(WriteFault { written });
        };
        if n == 0 {
            return Err(WriteFault { written });
        }
        written += n;
    }
    Ok(())
}
