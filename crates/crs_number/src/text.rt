//! The canonical text of a decimal.

ghost use Rattle.std.specs.Prelude.{◌≡◌, ◌+◌, ◌-◌, ◌^◌, ◌<◌, ◌≤◌, ◌++◌, ◌∷◌, length, take, drop, vec_len, vec_capacity, OnOk, OnErr, decimal, replicate};
ghost use Rattle.crs_number.specs.Canonical.{Extends, plain_text};

use itoa::Buffer;
use std::alloc::AllocError;

/// Appends a size below 10 ^ 34 times ten to the exponent.
pub(crate) fn push_plain(out: &mut Vec<u8>, size: u128, exponent: i32) -> Result<(), AllocError>
    requires { size < 10 ^ 34 }
    ensures ok { OnOk result (out.new.items ≡ out.old.items ++ plain_text size exponent) }
    ensures err { OnErr result (Extends out.old.items out.new.items) }
    ensures capacity { vec_capacity out.old ≤ vec_capacity out.new }
    ensures full { OnErr result (vec_capacity out.old < vec_len out.old + length (plain_text size exponent)) }
{
    let mut buffer = Buffer::new();
    let digits = digits_of(&mut buffer, size);
    let places = exponent.unsigned_abs() as usize;
    if exponent >= 0 {
        push_whole(out, digits, places)
    } else if places < digits.len() {
        push_places(out, digits, places)
    } else {
        push_fraction(out, digits, places)
    }
}

/// Numbers up to this one have 64 bits, and are divided faster.
const LARGEST_SMALL: u128 = 18_446_744_073_709_551_615;

fn digits_of(buffer: &mut Buffer, number: u128) -> &[u8]
    ensures { result.now ≡ decimal number }
{
    if number <= LARGEST_SMALL {
        buffer.format(number as u64).as_bytes()
    } else {
        buffer.format(number).as_bytes()
    }
}

/// Appends digits, and this many zeros.
fn push_whole(out: &mut Vec<u8>, digits: &[u8], zeros: usize) -> Result<(), AllocError>
    ensures ok { OnOk result (out.new.items ≡ out.old.items ++ (digits.now ++ replicate zeros 48)) }
    ensures err { OnErr result (Extends out.old.items out.new.items) }
    ensures capacity { vec_capacity out.old ≤ vec_capacity out.new }
    ensures full { OnErr result (vec_capacity out.old < vec_len out.old + (length digits.now + zeros)) }
{
    out.extend_from_slice(digits)?;
    push_zeros(out, zeros)
}

/// Appends digits, with this many after a period.
fn push_places(out: &mut Vec<u8>, digits: &[u8], places: usize) -> Result<(), AllocError>
    requires { places < length digits.now }
    ensures ok { let before = length digits.now - places
        in OnOk result (out.new.items ≡ out.old.items ++ (take before digits.now ++ 46 ∷ drop before digits.now)) }
    ensures err { OnErr result (Extends out.old.items out.new.items) }
    ensures capacity { vec_capacity out.old ≤ vec_capacity out.new }
    ensures full { OnErr result (vec_capacity out.old < vec_len out.old + (length digits.now + 1)) }
{
    let (whole, fraction) = digits.split_at(digits.len() - places);
    out.extend_from_slice(whole)?;
    out.push(b'.')?;
    out.extend_from_slice(fraction)
}

/// Appends a zero, a period, and this many decimal places, which end with the digits.
fn push_fraction(out: &mut Vec<u8>, digits: &[u8], places: usize) -> Result<(), AllocError>
    requires { length digits.now ≤ places }
    ensures ok { OnOk result
        (out.new.items ≡ out.old.items ++ (48 ∷ 46 ∷ replicate (places - length digits.now) 48 ++ digits.now)) }
    ensures err { OnErr result (Extends out.old.items out.new.items) }
    ensures capacity { vec_capacity out.old ≤ vec_capacity out.new }
    ensures full { OnErr result (vec_capacity out.old < vec_len out.old + (places + 2)) }
{
    out.extend_from_slice(b"0.")?;
    push_zeros(out, places - digits.len())?;
    out.extend_from_slice(digits)
}

fn push_zeros(out: &mut Vec<u8>, count: usize) -> Result<(), AllocError>
    ensures ok { OnOk result (out.new.items ≡ out.old.items ++ replicate count 48) }
    ensures err { OnErr result (Extends out.old.items out.new.items) }
    ensures capacity { vec_capacity out.old ≤ vec_capacity out.new }
    ensures full { OnErr result (vec_capacity out.old < vec_len out.old + count) }
{
    for _ in 0..count {
        out.push(b'0')?;
    }
    Ok(())
}
