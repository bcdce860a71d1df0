//! Angles that are round, exactly.

ghost use Rattle.std.specs.Prelude.{◌≡◌, ◌<◌, ◌^◌, IfSome};
ghost use Rattle.crs_conversion.specs.Round.{fine, is_whole_seconds, is_whole_minutes, minutes};

use crs_exact::{digits_of, places_of, scaled};
use crs_number::Decimal;

/// One degree, or one radian.
const ONE: u128 = 1_000_000_000_000_000_000_000_000_000_000_000;

/// A degree of 0.0174532925199433 radians.
const DEGREE: u128 = 17_453_292_519_943_300_000_000_000_000_000;

/// The size of an angle in units of 10^-33, if it has no more decimals and is below 10.
pub(crate) fn fine(value: Decimal) -> Option<u128>
    ensures value { result ≡ fine value }
    ensures small { IfSome result (λ n. n < 10 ^ 34) }
{
    let places = places_of(value);
    if places < 7 {
        return None;
    }
    scaled(digits_of(value), places - 7)
}

/// Whether so many degrees are a whole number of arc-seconds, to 10^-5 of one.
pub(crate) fn is_whole_seconds(size: u128) -> bool
    requires { size < 10 ^ 34 }
    ensures { result ≡ is_whole_seconds size }
{
    let past = size * 3_600 % ONE;
    past <= 10_000_000_000_000_000_000_000_000_000
        || 999_990_000_000_000_000_000_000_000_000_000 <= past
}

/// Whether so many radians are a whole number of arc-minutes, to 10^-6 degrees.
pub(crate) fn is_whole_minutes(size: u128) -> bool
    requires { size < 10 ^ 34 }
    ensures { result ≡ is_whole_minutes size }
{
    let past = size * 60 % DEGREE;
    past < 1_047_197_551_196_598_000_000_000_000
        || 17_452_245_322_392_103_402_000_000_000_000 < past
}

/// The arc-minutes that are nearest to so many radians.
pub(crate) fn minutes(size: u128) -> u128
    requires { size < 10 ^ 34 }
    ensures { result ≡ minutes size }
{
    (size * 60 + 8_726_646_259_971_650_000_000_000_000_000) / DEGREE
}
