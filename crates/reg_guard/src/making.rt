//! The command `office`.

ghost use Rattle.std.specs.Prelude.{◌≡◌, IfOk, OnOk, IfErr};
ghost use Rattle.reg_journal.specs.Journal.{fresh};
ghost use Rattle.reg_guard.specs.Making.{office_of, uuid_line, IsFounded, IsUnfounded};

use byte_io::{Sink, write_all};
use byte_out::{Place, replace};
use reg_engine::{CliFault, OutFault};
use reg_journal::OfficeFile;
use std::alloc::{AllocError, Global};
use uuid::{Builder, Uuid};

/// Makes an office file with a UUID of version 4, which has these random bytes, and made nothing; and writes the UUID to the sink,
/// with a newline.
pub fn run_office<P: Place, K: Sink>(
    alloc: Global,
    random: [u8; 16],
    place: &mut P,
    sink: &mut K,
) -> Result<(), CliFault>
    ensures made { OnOk result (IsFounded (office_of random) (P.state place.old) (P.state place.new) (K.state sink.old) (K.state sink.new)) }
    ensures fault { IfErr result (IsUnfounded (office_of random) (P.state place.old) (P.state place.new) (K.state sink.old) (K.state sink.new)) }
{
    let replica = Builder::from_random_bytes(random).into_uuid();
    let file = OfficeFile::new(alloc, replica);
    let Ok(text) = file.to_bytes(alloc) else {
        return Err(CliFault::Memory);
    };
    let Ok(line) = line_of(alloc, replica) else {
        return Err(CliFault::Memory);
    };
    if let Err(fault) = replace(place, None, &text) {
        let fault = CliFault::of_replace(fault);
        if !fault.is_after() {
            return Err(fault);
        }
        if let Err(cut) = write_all(sink, &line) {
            return Err(CliFault::Out(OutFault::WriteFailed(cut.written)));
        }
        return Err(fault);
    }
    match write_all(sink, &line) {
        Ok(()) => Ok(()),
        Err(fault) => Err(CliFault::Out(OutFault::WriteFailed(fault.written))),
    }
}

// The UUID in small letters, and a newline.
fn line_of(alloc: Global, replica: Uuid) -> Result<Vec<u8>, AllocError>
    ensures { IfOk result (λ line. line.items ≡ uuid_line (fresh replica)) }
{
    let mut buffer = Uuid::encode_buffer();
    let text = replica.hyphenated().encode_lower(&mut buffer);
    let mut line = Vec::new(alloc);
    line.extend_from_slice(text.as_bytes())?;
    line.push(b'\n')?;
    Ok(line)
}
