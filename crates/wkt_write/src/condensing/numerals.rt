//! Numerals that are rewritten in their canonical spelling.

ghost use Rattle.std.specs.Prelude.{◌≡◌, ◌≤◌, true, length, IfSome};
ghost use Rattle.wkt_write.specs.Pieces.{IsNumeralFront, IsSpelledAnew};

use crate::condensing::bytes::shuts_after_blanks;
use crs_number::Decimal;

/// A digit, a period or a sign.
#[inline(always)]
fn is_decimal_byte(b: u8) -> bool {
    b.is_ascii_digit() || b == b'.' || b == b'-' || b == b'+'
}

#[inline(always)]
fn decimal_len(bytes: &[u8]) -> usize
    ensures { result ≤ length bytes.now }
{
    bytes.iter().take_while(|b| is_decimal_byte(**b)).count()
}

/// The number of bytes in an exponent: `E` or `e`, and the digits after it.
#[inline(always)]
fn exponent_len(bytes: &[u8]) -> usize
    ensures { result ≤ length bytes.now }
{
    let Some((first, others)) = bytes.split_first() else {
        return 0;
    };
    if *first == b'e' || *first == b'E' {
        1 + decimal_len(others)
    } else {
        0
    }
}

/// Whether a numeral without an exponent is visibly not canonical. Its value is read later.
#[inline(always)]
fn is_odd(numeral: &[u8]) -> bool {
    let Some((first, others)) = numeral.split_first() else {
        return false;
    };
    let Some(last) = others.last() else {
        return false;
    };
    if *first == b'+' || *first == b'.' || *last == b'.' {
        return true;
    }
    if *first == b'0' && others[0] != b'.' {
        return true;
    }
    *last == b'0' && others.contains(&b'.')
}

/// The number of bytes of the numeral at the front, if it is not canonical and stands between delimiters.
#[inline(always)]
pub(crate) fn odd_len(shut: bool, bytes: &[u8]) -> Option<usize>
    ensures { IfSome result (λ len. IsNumeralFront shut bytes.now len) }
{
    let decimal = if shut { decimal_len(bytes) } else { 0 };
    if decimal == 0 {
        return None;
    }
    let (numeral, others) = bytes.split_at(decimal);
    let exponent = exponent_len(others);
    let (_, behind) = others.split_at(exponent);
    if (exponent > 0 || is_odd(numeral)) && shuts_after_blanks(behind) {
        return Some(decimal + exponent);
    }
    None
}

/// Appends the canonical text of the number that a numeral spells, or returns false.
pub(crate) fn respell(condensed: &mut Vec<u8>, numeral: &[u8]) -> bool
    ensures { result ≡ true → IsSpelledAnew condensed.old.items numeral.now condensed.new.items }
{
    match Decimal::from_numeral(numeral) {
        Ok(decimal) => match decimal.write_to(condensed) {
            Ok(()) => true,
            Err(_) => false,
        },
        Err(_) => false,
    }
}
