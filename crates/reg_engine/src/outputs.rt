//! Output files, and the ids that are printed afterwards.

ghost use Rattle.std.specs.Prelude.{◌≡◌, ◌++◌, ◌∷◌, [], IfOk, OnOk, IfErr, option_map};
ghost use Rattle.reg_op.specs.Text.{printed};
ghost use Rattle.byte_out.specs.Replace.{Replaces};
ghost use Rattle.reg_engine.specs.Outputs.{IsUnpublishedOf, PublishesFile, IsUnpublished, id_lines};

use crate::fault::{CliFault, OutFault};
use byte_out::{Chunks, Place, replace, replace_with};
use reg_file::{RegisterChunks, WriteFileFault};
use reg_op::OpId;
use reg_state::Register;
use std::alloc::{AllocError, Global};

// Replaces the output by this file, unless the output was read and has changed since.
pub(crate) fn publish_bytes<P: Place>(
    bytes: &[u8],
    read: Option<&[u8]>,
    place: &mut P,
) -> Result<(), CliFault>
    ensures published { OnOk result (Replaces (option_map (λ s. s.now) read.entry) bytes.now (P.state place.old) (P.state place.new)) }
    ensures fault { IfErr result (IsUnpublishedOf (option_map (λ s. s.now) read.entry) bytes.now (P.state place.old) (P.state place.new)) }
{
    match replace(place, read, bytes) {
        Ok(()) => Ok(()),
        Err(fault) => Err(CliFault::of_replace(fault)),
    }
}

// The same, with bytes that come in chunks.
fn publish_chunks<C: Chunks, P: Place>(
    content: &mut C,
    read: Option<&[u8]>,
    place: &mut P,
) -> Result<(), CliFault>
    ensures published { OnOk result (Replaces (option_map (λ s. s.now) read.entry) (C.bytes content.old) (P.state place.old) (P.state place.new)) }
    ensures fault { IfErr result (IsUnpublishedOf (option_map (λ s. s.now) read.entry) (C.bytes content.old) (P.state place.old) (P.state place.new)) }
{
    match replace_with(place, read, content) {
        Ok(()) => Ok(()),
        Err(fault) => Err(CliFault::of_replace(fault)),
    }
}

/// Replaces the output by the register's file, unless the output was read and has changed since. On any failure except that of the
/// last sync the old file is kept. Only some operations of the file are in memory at once.
pub fn publish_register<P: Place>(
    alloc: Global,
    register: &Register,
    read: Option<&[u8]>,
    place: &mut P,
) -> Result<(), CliFault>
    ensures published { OnOk result (PublishesFile register.now (option_map (λ s. s.now) read.entry) (P.state place.old) (P.state place.new)) }
    ensures fault { IfErr result (IsUnpublished register.now (option_map (λ s. s.now) read.entry) (P.state place.old) (P.state place.new)) }
{
    match RegisterChunks::new(alloc, register) {
        Ok(mut chunks) => publish_chunks(&mut chunks, read, place),
        Err(WriteFileFault::TooLarge) => Err(CliFault::Out(OutFault::TooLarge)),
        Err(_) => Err(CliFault::Memory),
    }
}

/// A line for each id.
pub fn id_lines(alloc: Global, ids: &[OpId]) -> Result<Vec<u8>, AllocError>
    ensures { IfOk result (λ lines. lines.items ≡ id_lines ids.now) }
{
    let mut lines = Vec::new(alloc);
    for id in ids {
        push_line(&mut lines, id)?;
    }
    Ok(lines)
}

fn push_line(lines: &mut Vec<u8>, id: &OpId) -> Result<(), AllocError>
    ensures { OnOk result (lines.new.items ≡ lines.old.items ++ (printed id.now ++ 10 ∷ [])) }
{
    id.write_to(lines)?;
    lines.push(b'\n')?;
    Ok(())
}
