//! The ends of texts between marks.

ghost use Rattle.std.specs.Prelude.{◌≡◌, ◌+◌, ◌≤◌, length, IfSome};
ghost use Rattle.std.specs.Bool.{OnTrue};
ghost use Rattle.std.specs.Str.{is_utf8};
ghost use Rattle.wkt_tree.specs.Marks.{IsPlainRun};
ghost use Rattle.wkt_canonical.specs.Ends.{IsEndOfText, IsLow};

use std::simd::prelude::*;
use wkt_tree::first_mark;

/// The number of bytes compared at once.
const LANES: usize = 16;

/// The place of the first mark, if what stands before it is UTF-8. Most texts are ASCII, which the search for the mark
/// shows.
#[inline(always)]
pub(crate) fn end_of_text(bytes: &[u8]) -> Option<usize>
    ensures { IfSome result (λ place. IsEndOfText bytes.now place) }
{
    let Some(place) = end_of_ascii(bytes) else {
        let place = end_of_utf8(bytes)?;
        return Some(place);
    };
    Some(place)
}

/// The same, if all bytes that are compared are ASCII and none of the last fifteen is needed.
#[inline(always)]
fn end_of_ascii(bytes: &[u8]) -> Option<usize>
    ensures { IfSome result (λ place. IsEndOfText bytes.now place) }
{
    let mut at = 0;
    while bytes.len() - at >= LANES {
        if !is_low(bytes, at) {
            return None;
        }
        let run = plain_run(bytes, at);
        if run < LANES {
            return Some(at + run);
        }
        at += LANES;
    }
    None
}

/// Whether the sixteen bytes from a place on are ASCII.
#[inline(always)]
fn is_low(bytes: &[u8], at: usize) -> bool
    requires { at + LANES ≤ length bytes.now }
    ensures { OnTrue result (IsLow bytes.now at (at + LANES)) }
{
    let lanes = u8x16::from_slice(&bytes[at..]);
    lanes.simd_ge(u8x16::splat(0x80)).to_bitmask() == 0
}

/// The number of bytes before the first mark, among the sixteen from a place on.
#[inline(always)]
fn plain_run(bytes: &[u8], at: usize) -> usize
    requires { at + LANES ≤ length bytes.now }
    ensures { IsPlainRun bytes.now at LANES result }
{
    let lanes = u8x16::from_slice(&bytes[at..]);
    let marks = lanes.simd_eq(u8x16::splat(b'"')).to_bitmask();
    if marks == 0 {
        LANES
    } else {
        marks.trailing_zeros() as usize
    }
}

/// The place of the first mark, if what stands before it is UTF-8, of any bytes.
#[inline(never)]
fn end_of_utf8(bytes: &[u8]) -> Option<usize>
    ensures { IfSome result (λ place. IsEndOfText bytes.now place) }
{
    let place = first_mark(bytes)?;
    if !is_utf8(&bytes[..place]) {
        return None;
    }
    Some(place)
}

fn is_utf8(bytes: &[u8]) -> bool
    ensures { result ≡ is_utf8 bytes.now }
{
    if bytes.is_ascii() {
        return true;
    }
    std::str::from_utf8(bytes).is_ok()
}
