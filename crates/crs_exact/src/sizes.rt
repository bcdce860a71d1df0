//! Exact comparisons of decimals, and of products of two, apart from their signs.

ghost use Rattle.std.specs.Prelude.{◌≡◌, ◌<◌, ◌≤◌, ◌^◌, ◌*◌, nat_lt, unsigned_abs, SomeIff};
ghost use Rattle.crs_number.specs.Value.{places};
ghost use Rattle.crs_exact.specs.Sizes.{is_below, is_beyond, is_product_below, is_product_beyond, is_same_size, is_nearly};

use crs_number::Decimal;

/// The digits of a decimal that has a product with another such decimal are below this number.
const FEW: u128 = 100_000_000_000_000_000;

/// All digits are below this number.
const LIMIT: u128 = 10_000_000_000_000_000_000_000_000_000_000_000;

/// Whether the size of the decimal is below this number with so many decimal places.
pub fn is_below(decimal: Decimal, digits: u128, places: u32) -> bool
    requires small { digits < 10 ^ 34 }
    requires places { places ≤ 40 }
    ensures { result ≡ is_below decimal digits places }
{
    is_less(digits_of(decimal), places_of(decimal), digits, 40 - places)
}

/// Whether the size of the decimal is above this number with so many decimal places.
pub fn is_beyond(decimal: Decimal, digits: u128, places: u32) -> bool
    requires small { digits < 10 ^ 34 }
    requires places { places ≤ 40 }
    ensures { result ≡ is_beyond decimal digits places }
{
    is_less(digits, 40 - places, digits_of(decimal), places_of(decimal))
}

/// Whether two decimals have few digits, and their product is below this number with so many decimal places.
pub fn is_product_below(value: Decimal, factor: Decimal, digits: u128, places: u32) -> bool
    requires small { digits < 10 ^ 34 }
    requires places { places ≤ 80 }
    ensures { result ≡ is_product_below value factor digits places }
{
    let left = digits_of(value);
    let right = digits_of(factor);
    if left >= FEW || right >= FEW {
        return false;
    }
    let power = places_of(value) + places_of(factor);
    is_less(left * right, power, digits, 80 - places)
}

/// Whether two decimals have few digits, and their product is above this number with so many decimal places.
pub fn is_product_beyond(value: Decimal, factor: Decimal, digits: u128, places: u32) -> bool
    requires small { digits < 10 ^ 34 }
    requires places { places ≤ 80 }
    ensures { result ≡ is_product_beyond value factor digits places }
{
    let left = digits_of(value);
    let right = digits_of(factor);
    if left >= FEW || right >= FEW {
        return false;
    }
    let power = places_of(value) + places_of(factor);
    is_less(digits, 80 - places, left * right, power)
}

/// Whether two decimals are equal, or opposite.
pub fn is_same_size(left: Decimal, right: Decimal) -> bool
    ensures { result ≡ is_same_size left right }
{
    digits_of(left) == digits_of(right) && places_of(left) == places_of(right)
}

/// Whether two decimals have few digits, and the first is within a tenth of the second.
pub fn is_nearly(left: Decimal, right: Decimal) -> bool
    ensures { result ≡ is_nearly left right }
{
    let digits = digits_of(left);
    let wanted = digits_of(right);
    if digits >= FEW || wanted >= FEW {
        return false;
    }
    let power = places_of(left) + 1;
    !is_less(digits, power, wanted * 9, places_of(right))
        && !is_less(wanted * 11, places_of(right), digits, power)
}

/// The digits, without the sign.
pub fn digits_of(decimal: Decimal) -> u128
    ensures value { result ≡ unsigned_abs decimal.coefficient }
    ensures small { result < 10 ^ 34 }
{
    decimal.coefficient().unsigned_abs()
}

/// The exponent, counted from -40.
pub fn places_of(decimal: Decimal) -> u32
    ensures value { result ≡ places decimal.exponent }
    ensures small { result ≤ 80 }
{
    (decimal.exponent() + 40) as u32
}

// Whether the left number times ten to its power is less than the right one.
fn is_less(left: u128, left_power: u32, right: u128, right_power: u32) -> bool
    requires left { left < 10 ^ 34 }
    requires right { right < 10 ^ 34 }
    ensures { result ≡ nat_lt (left * 10 ^ left_power) (right * 10 ^ right_power) }
{
    if left_power <= right_power {
        return match scaled(right, right_power - left_power) {
            Some(right) => left < right,
            None => true,
        };
    }
    match scaled(left, left_power - right_power) {
        Some(left) => left < right,
        None => false,
    }
}

/// The number times ten to the power, if that is below 10^34.
pub fn scaled(number: u128, power: u32) -> Option<u128>
    requires { number < 10 ^ 34 }
    ensures { SomeIff result (number * 10 ^ power < 10 ^ 34) (number * 10 ^ power) }
{
    let mut scaled = number;
    for _ in 0..power {
        if scaled >= LIMIT / 10 {
            return None;
        }
        scaled *= 10;
    }
    Some(scaled)
}
