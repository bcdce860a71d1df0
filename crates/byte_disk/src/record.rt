//! The record of a disk in memory, and its effect on bytes.

ghost use Rattle.std.specs.Prelude.{◌≡◌, List, ℕ, length, IfOk, OnOk, OnErr, true, false};
ghost use Rattle.byte_disk.specs.Disk.{ReadsAt};
ghost use Rattle.byte_disk.specs.Record.{overlaid, IsNoted, IsSameSpan, Grows, IsWhole, HasBegun};
ghost use Rattle.byte_disk.specs.Pending.{cut_by};

use crate::disk::DiskFault;
use crate::pending::Pending;
use crate::script::Fate;
use crate::span::{Past, SinceSync, Write};
use byte_io::Tally;
use std::alloc::{AllocError, Global};
use std::mem;

/// Copies the bytes from an offset on, and returns their number.
pub(crate) fn copy_out(from: &[u8], at: u64, buf: &mut [u8]) -> usize
    ensures { ReadsAt from.now at result buf.new }
{
    let start = (at as usize).min(from.len());
    let n = buf.len().min(from.len() - start);
    buf[..n].copy_from_slice(&from[start..start + n]);
    n
}

/// The old bytes with new ones over them.
pub(crate) fn overlay(
    alloc: Global,
    old: &[u8],
    at: u64,
    bytes: &[u8],
) -> Result<Vec<u8>, AllocError>
    ensures { IfOk result (λ v. v.items ≡ overlaid old.now at bytes.now) }
{
    let at = at as usize;
    let mut new = old[..at.min(old.len())].to_vec(alloc)?;
    new.resize(at, 0)?;
    new.extend_from_slice(bytes)?;
    if bytes.len() < old.len().saturating_sub(at) {
        new.extend_from_slice(&old[at + bytes.len()..])?;
    }
    Ok(new)
}

/// Adds a write to the span.
pub(crate) fn note(
    alloc: Global,
    span: &mut SinceSync,
    at: u64,
    bytes: &[u8],
    done: bool,
) -> Result<(), AllocError>
    ensures ok { OnOk result (IsNoted at bytes.now done span.old span.new) }
    ensures err { OnErr result (IsSameSpan span.old span.new) }
{
    let bytes = bytes.to_vec(alloc)?;
    span.writes.push(Write { at, bytes, done })?;
    Ok(())
}

/// Adds a write that was not done, if there is memory for it.
pub(crate) fn note_failed(alloc: Global, span: &mut SinceSync, at: u64, bytes: &[u8])
    ensures grows { Grows at (length bytes.now) span.old span.new }
    ensures whole { (content : List ℕ) → IsWhole content span.old → IsWhole content span.new }
{
    let _ = note(alloc, span, at, bytes, false);
}

/// Writes, if the call works, and records the write.
pub(crate) fn record_write(
    alloc: Global,
    content: &mut Vec<u8>,
    span: &mut SinceSync,
    at: u64,
    bytes: &[u8],
    fate: Fate,
) -> Result<(), DiskFault>
    ensures done { OnOk result (content.new.items ≡ overlaid content.old.items at bytes.now) }
    ensures grows { Grows at (length bytes.now) span.old span.new }
    ensures whole { IsWhole content.old.items span.old → IsWhole content.new.items span.new }
{
    match fate {
        Fate::Stopped => Err(DiskFault),
        Fate::Fails => {
            note_failed(alloc, span, at, bytes);
            Err(DiskFault)
        }
        Fate::Works => {
            let next = overlay(alloc, content, at, bytes)?;
            note(alloc, span, at, bytes, true)?;
            *content = next;
            Ok(())
        }
    }
}

/// The effect of a stop on the write over these bytes.
pub(crate) fn cut_short(
    alloc: Global,
    content: Vec<u8>,
    write: &Write,
    pending: Pending,
) -> Result<Vec<u8>, AllocError>
    ensures { IfOk result (λ v. v.items ≡ cut_by pending content.items write.now) }
{
    match pending {
        Pending::Old => Ok(content),
        Pending::New => overlay(alloc, &content, write.at, &write.bytes),
        Pending::Each(byte) => {
            let mut bytes = Vec::new(alloc);
            bytes.resize(write.bytes.len(), byte)?;
            overlay(alloc, &content, write.at, &bytes)
        }
    }
}

/// Ends the span at that moment, and begins one with these bytes.
pub(crate) fn begin(
    alloc: Global,
    span: &mut SinceSync,
    past: &mut Vec<Past>,
    base: &[u8],
    last: Tally,
) -> Result<(), AllocError>
    ensures ok { OnOk result (HasBegun base.now last.count
        span.old span.new past.old.items past.new.items) }
    ensures err { OnErr result ((span.new ≡ span.old) × (past.new.items ≡ past.old.items)) }
{
    let next = SinceSync {
        base: base.to_vec(alloc)?,
        writes: Vec::new(alloc),
    };
    let span_before = mem::replace(span, next);
    if let Err(refused) = past.push(Past {
        span: span_before,
        last,
    }) {
        *span = refused.value.span;
        return Err(AllocError);
    }
    Ok(())
}
