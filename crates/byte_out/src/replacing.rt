//! Replacing a file as a whole.

ghost use Rattle.std.specs.Prelude.{◌≡◌, OnOk, IfErr, option_map};
ghost use Rattle.byte_out.specs.Replace.{Prepares, Replaces, IsReplaceFault};

use crate::chunks::{Chunks, InOne};
use crate::fault::{CompareFault, MakeFault, ReplaceFault};
use crate::place::Place;
use crate::sending::fill;

/// Replaces the file by one with these bytes, if it still has the bytes that were read from it, or if it was not read. On
/// failure the old file stays, and the new one is removed.
pub fn replace<P: Place>(
    place: &mut P,
    read: Option<&[u8]>,
    bytes: &[u8],
) -> Result<(), ReplaceFault>
    ensures ok { OnOk result (Replaces (option_map (λ s. s.now) read.entry) bytes.now (P.state place.old) (P.state place.new)) }
    ensures fault { IfErr result
        (IsReplaceFault (option_map (λ s. s.now) read.entry) bytes.now (P.state place.old) (P.state place.new)) }
{
    let mut content = InOne::new(bytes);
    match replace_with(place, read, &mut content) {
        Ok(()) => Ok(()),
        Err(fault) => Err(fault),
    }
}

/// The same, with bytes that come in chunks.
pub fn replace_with<P: Place, C: Chunks>(
    place: &mut P,
    read: Option<&[u8]>,
    content: &mut C,
) -> Result<(), ReplaceFault>
    ensures ok { OnOk result (Replaces (option_map (λ s. s.now) read.entry) (C.bytes content.old) (P.state place.old) (P.state place.new)) }
    ensures fault { IfErr result
        (IsReplaceFault (option_map (λ s. s.now) read.entry) (C.bytes content.old) (P.state place.old) (P.state place.new)) }
{
    if let Err(fault) = prepare(place, read, content) {
        return Err(fault);
    }
    if let Err(fault) = place.put(read, content) {
        place.remove();
        return Err(ReplaceFault::of_put(fault));
    }
    if place.land().is_err() {
        return Err(ReplaceFault::NotSynced);
    }
    Ok(())
}

/// Does everything but the rename.
pub fn prepare<P: Place, C: Chunks>(
    place: &mut P,
    read: Option<&[u8]>,
    content: &mut C,
) -> Result<(), ReplaceFault>
    ensures ok { OnOk result (Prepares (option_map (λ s. s.now) read.entry) (C.bytes content.old) (P.state place.old) (P.state place.new)) }
    ensures fault { IfErr result
        (IsReplaceFault (option_map (λ s. s.now) read.entry) (C.bytes content.old) (P.state place.old) (P.state place.new)) }
    ensures bytes { C.bytes content.new ≡ C.bytes content.old }
{
    match place.make() {
        Ok(()) => {}
        Err(MakeFault::NotOpened) => return Err(ReplaceFault::NotOpened),
        Err(MakeFault::Exists) => return Err(ReplaceFault::NewExists),
    }
    if let Err(fault) = fill(place, content) {
        place.remove();
        return Err(ReplaceFault::WriteFailed(fault.written));
    }
    // The bytes have to be synced before the rename: otherwise a stop could leave a part of them under the name.
    if place.sync().is_err() {
        place.remove();
        return Err(ReplaceFault::WriteFailed(content.len()));
    }
    // Compare only now: before the new file exists, another command can make one and replace the old file.
    if let Some(read) = read {
        match place.compare(read) {
            Ok(()) => {}
            Err(CompareFault::NotOpened) => {
                place.remove();
                return Err(ReplaceFault::NotOpened);
            }
            Err(CompareFault::ReadFailed(count)) => {
                place.remove();
                return Err(ReplaceFault::ReadFailed(count));
            }
            Err(CompareFault::Changed) => {
                place.remove();
                return Err(ReplaceFault::Changed);
            }
        }
    }
    Ok(())
}
