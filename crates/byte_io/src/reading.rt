//! Reads of a whole source, or of its first bytes.

ghost use Rattle.std.specs.Prelude.{◌<◌, IfOk, IfErr};
ghost use Rattle.byte_io.specs.Whole.{ReadsUpTo, IsInFault, IsChunk};

use crate::fault::InFault;
use crate::source::Source;
use std::alloc::Global;

/// The number of bytes read at once.
const CHUNK: usize = 16_384;

/// Reads at most `room` bytes once, through the chunk, and appends them. Only at the end it reads none.
fn read_chunk<S: Source>(
    source: &mut S,
    chunk: &mut [u8; CHUNK],
    bytes: &mut Vec<u8>,
    room: usize,
) -> Result<usize, InFault>
    requires { 0 < room }
    ensures { IsChunk room bytes.old.items bytes.new.items
        (S.state source.old) (S.state source.new) result }
{
    let want = room.min(CHUNK);
    match source.read_some(&mut chunk[..want]) {
        Ok(0) => Ok(0),
        Ok(n) => {
            bytes.extend_from_slice(&chunk[..n])?;
            Ok(n)
        }
        Err(_) => Err(InFault::ReadFailed(bytes.len())),
    }
}

/// The bytes of the source up to its end, or its first `most` bytes, however they are split.
pub fn read_up_to<S: Source>(alloc: Global, source: &mut S, most: usize) -> Result<Vec<u8>, InFault>
    ensures ok { IfOk result (λ v. ReadsUpTo most (S.state source.old) (S.state source.new) v.items) }
    ensures fault { IfErr result (IsInFault most (S.state source.old) (S.state source.new)) }
{
    let mut chunk = [0; CHUNK];
    let mut bytes = Vec::new(alloc);
    while bytes.len() < most {
        let room = most - bytes.len();
        match read_chunk(source, &mut chunk, &mut bytes, room) {
            Ok(0) => return Ok(bytes),
            Ok(_) => {}
            Err(fault) => return Err(fault),
        }
    }
    Ok(bytes)
}
