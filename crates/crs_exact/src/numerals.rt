//! Numbers in the fields of tables.

ghost use Rattle.std.specs.Prelude.{◌≡◌, ◌<◌, IfSome};
ghost use Rattle.crs_exact.specs.Tables.{spelled, fixed, is_coded, is_code};

use crate::names::after;
use crate::sizes::{is_below, is_beyond};
use crate::tables::{before, past};
use crs_number::Decimal;

/// Numbers from here on get no more digits.
const LIMIT: u128 = 50_000_000_000_000_000_000_000;

/// The number that a field spells, in units of its last decimal place: it has as many of them as there are zeros.
pub fn fixed(field: &[u8], zeros: &[u8]) -> Option<u128>
    ensures value { result ≡ fixed zeros.now field.now }
    ensures small { IfSome result (λ n. n < 600000000000000000000000) }
{
    let decimals = past(field, b'.');
    let Some(whole) = spelled(0, before(field, b'.')) else {
        return None;
    };
    let Some(number) = spelled(whole, decimals) else {
        return None;
    };
    spelled(number, after(zeros, decimals.len()))
}

// The number with more digits after it.
fn spelled(first: u128, digits: &[u8]) -> Option<u128>
    requires { first < 600000000000000000000000 }
    ensures value { result ≡ spelled first digits.now }
    ensures small { IfSome result (λ n. n < 600000000000000000000000) }
{
    let mut number = first;
    let mut rest = digits;
    while let Some((digit, others)) = rest.split_first() {
        if number >= LIMIT {
            return None;
        }
        number = number * 10 + u128::from(digit.saturating_sub(48));
        rest = others;
    }
    Some(number)
}

/// Whether the field spells this number.
pub fn is_code(field: &[u8], number: Decimal) -> bool
    ensures { result ≡ is_code field.now number }
{
    match fixed(field, b"") {
        Some(code) => {
            number.coefficient() > 0 && !is_below(number, code, 0) && !is_beyond(number, code, 0)
        }
        None => false,
    }
}
