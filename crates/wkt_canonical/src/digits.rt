//! Leading digits.

ghost use Rattle.std.specs.Prelude.{◌≡◌, ◌≤◌, length, take};
ghost use Rattle.std.specs.Char.{is_ascii_digit};
ghost use Rattle.std.specs.List.{prefix_len};

use std::simd::prelude::*;

/// The number of bytes compared at once.
const LANES: usize = 16;

/// The number of leading digits.
#[inline(always)]
pub(crate) fn leading_digits(bytes: &[u8]) -> usize
    ensures { result ≡ prefix_len is_ascii_digit bytes.now }
{
    if bytes.len() < LANES {
        return few_digits(bytes);
    }
    let run = digit_run(bytes);
    if run < LANES {
        return run;
    }
    LANES + few_digits(&bytes[LANES..])
}

/// The same, one digit at a time.
fn few_digits(bytes: &[u8]) -> usize
    ensures { result ≡ prefix_len is_ascii_digit bytes.now }
{
    bytes.iter().take_while(|b| b.is_ascii_digit()).count()
}

/// The number of leading digits among the first sixteen bytes.
#[inline(always)]
fn digit_run(bytes: &[u8]) -> usize
    requires { LANES ≤ length bytes.now }
    ensures { result ≡ prefix_len is_ascii_digit (take LANES bytes.now) }
{
    let lanes = u8x16::from_slice(bytes);
    let others = (lanes - u8x16::splat(b'0'))
        .simd_gt(u8x16::splat(9))
        .to_bitmask();
    if others == 0 {
        LANES
    } else {
        others.trailing_zeros() as usize
    }
}
