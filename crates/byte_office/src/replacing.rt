//! Replaces a file, and an office file before it.

ghost use Rattle.std.specs.Prelude.{OnOk, IfErr, option_map};
ghost use Rattle.byte_office.specs.Replacing.{ReplacesAfter, IsUnreplaced};

use crate::fault::UnreplacedFault;
use crate::noting::put_changed;
use byte_out::{Chunks, Place, PutFault, ReplaceFault, prepare};

/// Replaces a file by one with these bytes, as `replace` of `byte_out` does. As soon as the new file is ready, the office file
/// is replaced by one with this text, if there is one. So a stop in between leaves an office file that is ahead, never one that
/// is behind.
pub fn replace_after<P: Place, Q: Place, C: Chunks>(
    place: &mut P,
    read: Option<&[u8]>,
    content: &mut C,
    office: &mut Q,
    text: Option<&[u8]>,
) -> Result<(), UnreplacedFault>
    ensures ok { OnOk result (ReplacesAfter (option_map (λ s. s.now) read.entry) (C.bytes content.old) (option_map (λ s. s.now) text.entry)
        (P.state place.old) (P.state place.new) (Q.state office.old) (Q.state office.new)) }
    ensures fault { IfErr result (IsUnreplaced (option_map (λ s. s.now) read.entry) (C.bytes content.old) (option_map (λ s. s.now) text.entry)
        (P.state place.old) (P.state place.new) (Q.state office.old) (Q.state office.new)) }
{
    if let Err(fault) = prepare(place, read, content) {
        return Err(UnreplacedFault::Unready(fault));
    }
    if let Err(fault) = put_changed(office, text) {
        place.remove();
        return Err(UnreplacedFault::Unnoted(fault));
    }
    match place.put(read, content) {
        Ok(()) => {}
        Err(PutFault::NotOpened) => {
            place.remove();
            return Err(UnreplacedFault::Late(ReplaceFault::NotOpened));
        }
        Err(PutFault::Changed) => {
            place.remove();
            return Err(UnreplacedFault::Late(ReplaceFault::Changed));
        }
        Err(PutFault::WriteFailed(count)) => {
            place.remove();
            return Err(UnreplacedFault::Late(ReplaceFault::WriteFailed(count)));
        }
    }
    if place.land().is_err() {
        return Err(UnreplacedFault::Late(ReplaceFault::NotSynced));
    }
    Ok(())
}
