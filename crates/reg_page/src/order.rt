//! The order of codes: numbers come first, by value.

ghost use Rattle.std.specs.Prelude.{◌≡◌};
ghost use Rattle.reg_page.specs.Codes.{is_digit, is_number, without_zeros, class_of, digits_of, code_cmp};

use std::cmp::Ordering;

fn is_digit(byte: u8) -> bool
    ensures { result ≡ is_digit byte }
{
    48 <= byte && byte <= 57
}

fn all_digits(code: &[u8]) -> bool
    ensures { result ≡ is_number code.now }
{
    code.iter().all(|byte| is_digit(*byte))
}

fn without_zeros(code: &[u8]) -> &[u8]
    ensures { result.now ≡ without_zeros code.now }
{
    let mut rest = code;
    while let Some((byte, others)) = rest.split_first() {
        if *byte != b'0' {
            return rest;
        }
        rest = others;
    }
    rest
}

// 0 for a number, and 1 for a text.
fn class_of(code: &[u8]) -> usize
    ensures { result ≡ class_of code.now }
{
    if all_digits(code) {
        return 0;
    }
    1
}

// The digits of a number without the zeros at its front. A text has none.
fn digits_of(code: &[u8]) -> &[u8]
    ensures { result.now ≡ digits_of code.now }
{
    if all_digits(code) {
        return without_zeros(code);
    }
    &[]
}

/// Compares two codes: numbers by value, then all others by their bytes.
pub fn compare_codes(left: &[u8], right: &[u8]) -> Ordering
    ensures { result ≡ code_cmp left.now right.now }
{
    let one = digits_of(left);
    let other = digits_of(right);
    class_of(left).cmp(&class_of(right)).then(
        one.len()
            .cmp(&other.len())
            .then(one.cmp(other).then(left.cmp(right))),
    )
}
