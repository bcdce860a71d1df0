//! Numbers in canonical form.

ghost use Rattle.std.specs.Prelude.{◌≡◌, ◌≢◌, ◌∷◌, IfSome, get_or};
ghost use Rattle.wkt_grammar.specs.Trees.{number_tree};
ghost use Rattle.crs_number.specs.Reading.{CutsDigits};
ghost use Rattle.wkt_canonical.specs.Reads.{ReadsFirst, ReadsOne, any, is_above_zero, is_not_below_zero};
ghost use Rattle.wkt_canonical.specs.Digits.{ReadsFraction};

use crate::digits::leading_digits;
use crate::front::behind;

/// The longest whole part that is read.
const MAX_WHOLE: usize = 16;

/// The most digits after a period that are read.
const MAX_PLACES: usize = 18;

/// The longest run of digits, and the rest.
fn split_digits(bytes: &[u8]) -> (&[u8], &[u8])
    ensures { CutsDigits bytes.now result.0.now result.1.now }
{
    bytes.split_at(leading_digits(bytes))
}

/// The rest after the digits that follow a period.
fn fraction(text: &[u8]) -> Option<&[u8]>
    ensures { IfSome result (λ rest. ReadsFraction text.now rest.now) }
{
    let (digits, rest) = split_digits(text);
    let Some((last, _)) = digits.split_last() else {
        return None;
    };
    if *last == b'0' || digits.len() > MAX_PLACES {
        return None;
    }
    Some(rest)
}

/// The rest after a number above zero and below one, whose `0` was already read.
fn below_one(text: &[u8]) -> Option<&[u8]>
    ensures { IfSome result (λ rest. ReadsFirst is_above_zero number_tree (48 ∷ text.now) rest.now) }
{
    let Some((period, digits)) = text.split_first() else {
        return None;
    };
    if *period != b'.' {
        return None;
    }
    let Some(rest) = fraction(digits) else {
        return None;
    };
    Some(rest)
}

/// The rest after a number of at least one, which does not begin with `0`.
fn from_one(text: &[u8]) -> Option<&[u8]>
    requires { get_or text.now 0 0 ≢ 48 }
    ensures { IfSome result (λ rest. ReadsFirst is_above_zero number_tree text.now rest.now) }
{
    let (whole, rest) = split_digits(text);
    if whole.is_empty() || whole.len() > MAX_WHOLE {
        return None;
    }
    let Some((period, digits)) = rest.split_first() else {
        return Some(rest);
    };
    if *period != b'.' {
        return Some(rest);
    }
    let Some(rest) = fraction(digits) else {
        return None;
    };
    Some(rest)
}

/// The rest after a number above zero.
pub(crate) fn positive_number(text: &[u8]) -> Option<&[u8]>
    ensures { IfSome result (λ rest. ReadsFirst is_above_zero number_tree text.now rest.now) }
{
    let Some((first, behind)) = text.split_first() else {
        return None;
    };
    if *first == b'0' {
        return below_one(behind);
    }
    from_one(text)
}

/// The rest after zero or a number below one, whose `0` was already read.
fn from_zero(text: &[u8]) -> Option<&[u8]>
    ensures { IfSome result (λ rest. ReadsFirst is_not_below_zero number_tree (48 ∷ text.now) rest.now) }
{
    let Some((next, _)) = text.split_first() else {
        return Some(text);
    };
    if *next == b'.' {
        let Some(rest) = below_one(text) else {
            return None;
        };
        return Some(rest);
    }
    if next.is_ascii_digit() {
        return None;
    }
    Some(text)
}

/// The rest after a number of at least zero.
pub(crate) fn unsigned_number(text: &[u8]) -> Option<&[u8]>
    ensures { IfSome result (λ rest. ReadsFirst is_not_below_zero number_tree text.now rest.now) }
{
    let Some((first, behind)) = text.split_first() else {
        return None;
    };
    if *first == b'0' {
        return from_zero(behind);
    }
    let Some(rest) = from_one(text) else {
        return None;
    };
    Some(rest)
}

/// The rest after a number.
pub(crate) fn number(text: &[u8]) -> Option<&[u8]>
    ensures { IfSome result (λ rest. ReadsFirst any number_tree text.now rest.now) }
{
    let Some((first, size)) = text.split_first() else {
        return None;
    };
    if *first == b'-' {
        let Some(rest) = positive_number(size) else {
            return None;
        };
        return Some(rest);
    }
    let Some(rest) = unsigned_number(text) else {
        return None;
    };
    Some(rest)
}

/// The rest after a comma and a number.
pub(crate) fn number_behind_comma(text: &[u8]) -> Option<&[u8]>
    ensures { IfSome result (λ rest. ReadsOne any number_tree text.now rest.now) }
{
    let Some(numeral) = behind(text, b",") else {
        return None;
    };
    let Some(rest) = number(numeral) else {
        return None;
    };
    Some(rest)
}

/// The rest after a comma and a number above zero.
pub(crate) fn positive_number_behind_comma(text: &[u8]) -> Option<&[u8]>
    ensures { IfSome result (λ rest. ReadsOne is_above_zero number_tree text.now rest.now) }
{
    let Some(numeral) = behind(text, b",") else {
        return None;
    };
    let Some(rest) = positive_number(numeral) else {
        return None;
    };
    Some(rest)
}

/// The rest after a comma and a number of at least zero.
pub(crate) fn unsigned_number_behind_comma(text: &[u8]) -> Option<&[u8]>
    ensures { IfSome result (λ rest. ReadsOne is_not_below_zero number_tree text.now rest.now) }
{
    let Some(numeral) = behind(text, b",") else {
        return None;
    };
    let Some(rest) = unsigned_number(numeral) else {
        return None;
    };
    Some(rest)
}
