//! Replaces the file of an office.

ghost use Rattle.std.specs.Prelude.{OnOk, IfErr, option_map};
ghost use Rattle.byte_office.specs.Noting.{Notes, NotesIf, IsUnnoted, IsUnnotedIf};

use crate::fault::OfficeFileFault;
use byte_out::{InOne, Place, PutFault};

/// Replaces the office file by one with this text. Its new file was made before: it keeps other commands of the office away. If
/// it does not get the name, it is removed.
pub fn put_office<P: Place>(place: &mut P, text: &[u8]) -> Result<(), OfficeFileFault>
    ensures noted { OnOk result (Notes text.now (P.state place.old) (P.state place.new)) }
    ensures fault { IfErr result (IsUnnoted text.now (P.state place.old) (P.state place.new)) }
{
    if let Err(fault) = place.write(text) {
        place.remove();
        return Err(OfficeFileFault::WriteFailed(fault.written));
    }
    if place.sync().is_err() {
        place.remove();
        return Err(OfficeFileFault::WriteFailed(text.len()));
    }
    match place.put(None, &mut InOne::new(text)) {
        Ok(()) => {}
        Err(PutFault::NotOpened) => {
            place.remove();
            return Err(OfficeFileFault::NotOpened);
        }
        Err(PutFault::Changed) => {
            place.remove();
            return Err(OfficeFileFault::NotOpened);
        }
        Err(PutFault::WriteFailed(count)) => {
            place.remove();
            return Err(OfficeFileFault::WriteFailed(count));
        }
    }
    // What a power cut may undo is not told.
    if place.land().is_err() {
        return Err(OfficeFileFault::WriteFailed(text.len()));
    }
    Ok(())
}

/// The same if there is a text; otherwise the office file is unchanged.
pub fn put_changed<P: Place>(place: &mut P, text: Option<&[u8]>) -> Result<(), OfficeFileFault>
    ensures noted { OnOk result (NotesIf (option_map (λ s. s.now) text.entry) (P.state place.old) (P.state place.new)) }
    ensures fault { IfErr result (IsUnnotedIf (option_map (λ s. s.now) text.entry) (P.state place.old) (P.state place.new)) }
{
    let Some(text) = text else {
        return Ok(());
    };
    match put_office(place, text) {
        Ok(()) => Ok(()),
        Err(fault) => Err(fault),
    }
}
