//! The mark that ends a text.

ghost use Rattle.std.specs.Prelude.{◌≡◌, ◌<◌, ◌+◌, ◌≤◌, length, position, IfSome};
ghost use Rattle.wkt_tree.specs.Tokens.{is_mark};
ghost use Rattle.wkt_tree.specs.Marks.{IsPlainRun};

use std::simd::prelude::*;

/// The number of bytes that are compared at once.
const LANES: usize = 16;

/// The number of bytes before the first mark, among those compared at once from a place on.
#[inline(always)]
fn plain_run(bytes: &[u8], at: usize) -> usize
    requires { at + LANES ≤ length bytes.now }
    ensures { IsPlainRun bytes.now at LANES result }
{
    let lanes = u8x16::from_slice(&bytes[at..]);
    let marks = lanes.simd_eq(u8x16::splat(b'"')).to_bitmask();
    if marks == 0 {
        LANES
    } else {
        marks.trailing_zeros() as usize
    }
}

/// The place of the first quotation mark, the byte 0x22.
#[inline(always)]
pub fn first_mark(bytes: &[u8]) -> Option<usize>
    ensures first { result ≡ position is_mark bytes.now }
    ensures within { IfSome result (λ place. place < length bytes.now) }
{
    let mut at = 0;
    while bytes.len() - at >= LANES {
        let run = plain_run(bytes, at);
        if run < LANES {
            return Some(at + run);
        }
        at += LANES;
    }
    while at < bytes.len() {
        if bytes[at] == b'"' {
            return Some(at);
        }
        at += 1;
    }
    None
}
