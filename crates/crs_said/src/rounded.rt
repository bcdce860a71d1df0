//! Numbers as texts of whole numbers, rounded.

ghost use Rattle.std.specs.Prelude.{◌≡◌, ◌<◌, ◌≤◌, ◌^◌, ◌++◌, decimal, replicate, OnOk};
ghost use Rattle.crs_said.specs.Rounded.{spelled, quotient, rounded, product_rounded};

use crs_exact::scaled;
use itoa::Buffer;
use std::alloc::AllocError;

/// Numbers of at most 17 digits are below this one.
const FEW: u128 = 100_000_000_000_000_000;

/// A number of digits, and how many zeros follow.
#[derive(Clone, Copy)]
pub(crate) struct Size {
    pub(crate) digits: u128,
    pub(crate) zeros: u32,
    pub(crate) ghost small: { digits < 10 ^ 34 },
    pub(crate) ghost few: { zeros ≤ 80 },
}

/// Appends a product in units of ten to the power, rounded half up; or both factors, if one has more than 17 digits.
pub(crate) fn push_product(
    out: &mut Vec<u8>,
    left: Size,
    right: Size,
    power: u32,
) -> Result<(), AllocError>
    ensures { OnOk result (out.new.items ≡ out.old.items ++ product_rounded left.digits left.zeros right.digits right.zeros power) }
{
    if left.digits < FEW && right.digits < FEW {
        return push_rounded(
            out,
            left.digits * right.digits,
            left.zeros + right.zeros,
            power,
        );
    }
    push_spelled(out, left.digits, left.zeros)?;
    out.push(b'*')?;
    push_spelled(out, right.digits, right.zeros)
}

/// Appends a number with so many zeros in units of ten to the power, rounded half up.
pub(crate) fn push_rounded(
    out: &mut Vec<u8>,
    digits: u128,
    zeros: u32,
    power: u32,
) -> Result<(), AllocError>
    requires { digits < 10 ^ 34 }
    ensures { OnOk result (out.new.items ≡ out.old.items ++ rounded digits zeros power) }
{
    if digits == 0 {
        return out.extend_from_slice(b"0");
    }
    if zeros < power {
        return push_number(out, quotient(digits, power - zeros - 1));
    }
    push_spelled(out, digits, zeros - power)
}

// The number divided by ten times ten to the power, rounded half up.
fn quotient(digits: u128, power: u32) -> u128
    requires { digits < 10 ^ 34 }
    ensures { result ≡ quotient digits power }
{
    match scaled(1, power) {
        Some(tens) => (digits + 5 * tens) / (10 * tens),
        None => 0,
    }
}

fn push_spelled(out: &mut Vec<u8>, digits: u128, zeros: u32) -> Result<(), AllocError>
    ensures { OnOk result (out.new.items ≡ out.old.items ++ spelled digits zeros) }
{
    push_number(out, digits)?;
    push_zeros(out, zeros)
}

fn push_number(out: &mut Vec<u8>, number: u128) -> Result<(), AllocError>
    ensures { OnOk result (out.new.items ≡ out.old.items ++ decimal number) }
{
    let mut buffer = Buffer::new();
    out.extend_from_slice(buffer.format(number).as_bytes())
}

fn push_zeros(out: &mut Vec<u8>, count: u32) -> Result<(), AllocError>
    ensures { OnOk result (out.new.items ≡ out.old.items ++ replicate count 48) }
{
    for _ in 0..count {
        out.push(b'0')?;
    }
    Ok(())
}
