//! The command `check`.

ghost use Rattle.std.specs.Prelude.{OnOk, IfErr};
ghost use Rattle.reg_commands.specs.Check.{IsPrinted, IsCheckFault};
ghost use Rattle.reg_commands.specs.Devices.{devices};

use byte_io::{Sink, Source, write_all};
use reg_engine::{CliFault, OutFault};
use std::alloc::Global;
use wkt_crs::canonical_text_from;

/// Reads the text of the source (file 1), and writes its canonical text and a newline. A text that is recognized as
/// canonical is written unchanged.
pub fn run_check<S: Source, K: Sink>(
    alloc: Global,
    source: &mut S,
    sink: &mut K,
) -> Result<(), CliFault>
    ensures printed { OnOk result (IsPrinted
        (devices (S.state source.old) (K.state sink.old))
        (devices (S.state source.new) (K.state sink.new))) }
    ensures fault { IfErr result (IsCheckFault
        (devices (S.state source.old) (K.state sink.old))
        (devices (S.state source.new) (K.state sink.new))) }
{
    let mut line = match canonical_text_from(alloc, source) {
        Ok(canonical) => canonical,
        Err(fault) => return Err(CliFault::of_text(1, fault)),
    };
    if let Err(_) = line.push(b'\n') {
        return Err(CliFault::Memory);
    }
    match write_all(sink, &line) {
        Ok(()) => Ok(()),
        Err(fault) => Err(CliFault::Out(OutFault::WriteFailed(fault.written))),
    }
}
