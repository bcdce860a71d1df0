//! The order of keys.

ghost use Rattle.std.specs.Prelude.{◌≡◌};
ghost use Rattle.reg_sense.specs.Claimants.{voice};
ghost use Rattle.reg_sense.specs.Keys.{is_digit, is_number, class_of, digits_of, rank_of, authority_cmp, code_cmp, is_before, has_same_key};

use crate::claimant::Claimant;
use std::cmp::Ordering;

fn is_digit(byte: u8) -> bool
    ensures { result ≡ is_digit byte }
{
    48 <= byte && byte <= 57
}

fn is_number(code: &[u8]) -> bool
    ensures { result ≡ is_number code.now }
{
    code.iter().all(|byte| is_digit(*byte))
}

// 0 for a number, and 1 for a text.
fn class_of(code: &[u8]) -> usize
    ensures { result ≡ class_of code.now }
{
    if is_number(code) {
        return 0;
    }
    1
}

fn digits_of(code: &[u8]) -> usize
    ensures { result ≡ digits_of code.now }
{
    if is_number(code) {
        return code.len();
    }
    0
}

fn compare_codes(left: &[u8], right: &[u8]) -> Ordering
    ensures { result ≡ code_cmp left.now right.now }
{
    class_of(left).cmp(&class_of(right)).then(
        digits_of(left).cmp(&digits_of(right)).then(left.cmp(right)),
    )
}

// 0 for EPSG, which others copy.
fn rank_of(authority: &[u8]) -> usize
    ensures { result ≡ rank_of authority.now }
{
    let first: &[u8] = b"EPSG";
    if authority == first {
        return 0;
    }
    1
}

fn compare_authorities(left: &[u8], right: &[u8]) -> Ordering
    ensures { result ≡ authority_cmp left.now right.now }
{
    rank_of(left).cmp(&rank_of(right)).then(left.cmp(right))
}

/// Whether the key on the left is the lesser.
pub(crate) fn is_before(left: &Claimant, right: &Claimant) -> bool
    ensures { result ≡ is_before (voice left.now) (voice right.now) }
{
    compare_authorities(left.authority.as_slice(), right.authority.as_slice())
        .then(compare_codes(left.code.as_slice(), right.code.as_slice()))
        .is_lt()
}

/// Whether both have one key.
pub(crate) fn has_same_key(left: &Claimant, right: &Claimant) -> bool
    ensures { result ≡ has_same_key (voice left.now) (voice right.now) }
{
    left.authority.as_slice() == right.authority.as_slice()
        && left.code.as_slice() == right.code.as_slice()
}
