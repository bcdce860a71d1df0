//! Bounding boxes whose west and east look swapped.

ghost use Rattle.std.specs.Prelude.{◌≡◌, ◌<◌, ◌≤◌, ◌^◌, IfSome};
ghost use Rattle.crs_sense.specs.Swapped.{fine, east_of_half, from_half, are_swapped, is_swapped};

use crs_exact::{digits_of, places_of, scaled};
use crs_number::Decimal;
use crs_part::BoundingBox;

/// 180 degrees, in units of 10^-17 degrees.
const HALF: u128 = 18_000_000_000_000_000_000;

/// Whether the west is more than 0.1 and less than 160 degrees east of the east, so that the box runs the long way, over the
/// antimeridian.
pub(crate) fn is_swapped(found: &BoundingBox) -> bool
    ensures { result ≡ is_swapped found.now }
{
    are_swapped(from_half(found.west), from_half(found.east))
}

fn are_swapped(west: Option<u128>, east: Option<u128>) -> bool
    requires west { IfSome west (λ n. n ≤ 36000000000000000000) }
    requires east { IfSome east (λ n. n ≤ 36000000000000000000) }
    ensures { result ≡ are_swapped west east }
{
    match (west, east) {
        (Some(west), Some(east)) => {
            east + 10_000_000_000_000_000 < west && west < east + 16_000_000_000_000_000_000
        }
        _ => false,
    }
}

// The longitude from 180 degrees west, in units of 10^-17 degrees, if it is at most 180 and has at most 17 decimals.
fn from_half(longitude: Decimal) -> Option<u128>
    ensures value { result ≡ from_half longitude }
    ensures small { IfSome result (λ n. n ≤ 36000000000000000000) }
{
    east_of_half(
        longitude.coefficient() < 0,
        fine(digits_of(longitude), places_of(longitude)),
    )
}

// The number times ten to the power, counted from 23, if that is a whole number below 10^34.
fn fine(number: u128, power: u32) -> Option<u128>
    requires { number < 10 ^ 34 }
    ensures { result ≡ fine number power }
{
    if power < 23 {
        return None;
    }
    scaled(number, power - 23)
}

fn east_of_half(is_west: bool, size: Option<u128>) -> Option<u128>
    ensures value { result ≡ east_of_half is_west size }
    ensures small { IfSome result (λ n. n ≤ 36000000000000000000) }
{
    match size {
        Some(size) => {
            if size > HALF {
                return None;
            }
            if is_west {
                return Some(HALF - size);
            }
            Some(HALF + size)
        }
        None => None,
    }
}
