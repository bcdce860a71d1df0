//! Angles as exact places on a turn.

ghost use Rattle.std.specs.Prelude.{◌≡◌, ◌<◌, ◌≤◌, ◌+◌, ◌-◌, ◌*◌, ◌^◌, IfSome};
ghost use Rattle.std.specs.Option.{option_map};
ghost use Rattle.crs_meridians.specs.Turn.{turn, sized, on_turn, in_degrees, in_unit, in_unit_or_degrees, reach, is_far_east, is_far_north};

use crs_exact::{digits_of, places_of, scaled};
use crs_number::Decimal;
use crs_part::UnitDefinition;

/// The digits of a degree of 0.0174532925199433 radians.
const DEGREE: u128 = 174_532_925_199_433;

/// A whole turn: in units of 10^-31 radians.
pub(crate) const TURN: u128 = 62_831_853_071_795_880_000_000_000_000_000;

/// Decimals with fewer digits are looked at.
const FEW: u128 = 100_000_000_000_000_000;

// The number times ten to the power, counted from 49, if that is a whole number below 10^34.
fn sized(number: u128, power: u32) -> Option<u128>
    requires { number < 10 ^ 34 }
    ensures { result ≡ sized number power }
{
    if power < 49 {
        return None;
    }
    scaled(number, power - 49)
}

// A turn and the angle of this size, if that is at most a turn.
fn on_turn(is_negative: bool, size: Option<u128>) -> Option<u128>
    ensures value { result ≡ on_turn is_negative size }
    ensures small { IfSome result (λ n. n ≤ 2 * 62831853071795880000000000000000) }
{
    match size {
        Some(size) => {
            if size > TURN {
                return None;
            }
            if is_negative {
                return Some(TURN - size);
            }
            Some(TURN + size)
        }
        None => None,
    }
}

/// A turn and so many degrees, in units of 10^-31 radians, if they have few digits and are at most a turn.
pub(crate) fn in_degrees(value: Decimal) -> Option<u128>
    ensures value { result ≡ in_degrees value }
    ensures small { IfSome result (λ n. n ≤ 2 * 62831853071795880000000000000000) }
{
    let digits = digits_of(value);
    if digits >= FEW {
        return None;
    }
    on_turn(
        value.coefficient() < 0,
        sized(digits * DEGREE, places_of(value) + 24),
    )
}

/// The same of an angle in a unit.
pub(crate) fn in_unit(value: Decimal, factor: Decimal) -> Option<u128>
    ensures value { result ≡ in_unit value factor }
    ensures small { IfSome result (λ n. n ≤ 2 * 62831853071795880000000000000000) }
{
    let left = digits_of(value);
    let right = digits_of(factor);
    if left >= FEW || right >= FEW {
        return None;
    }
    on_turn(
        value.coefficient() < 0,
        sized(left * right, places_of(value) + places_of(factor)),
    )
}

/// The same, in degrees without a unit.
pub(crate) fn in_unit_or_degrees(value: Decimal, unit: Option<&UnitDefinition>) -> Option<u128>
    ensures value { result ≡ in_unit_or_degrees value (option_map (λ unit. unit.now) unit.entry) }
    ensures small { IfSome result (λ n. n ≤ 2 * 62831853071795880000000000000000) }
{
    match unit {
        Some(unit) => in_unit(value, unit.factor),
        None => in_degrees(value),
    }
}

/// Whether a meridian, from a prime meridian, is more than so many degrees from the arc that runs east from west to east. Each is a
/// turn and an angle.
pub(crate) fn is_far_east(meridian: u128, prime: u128, west: u128, east: u128, degrees: u32) -> bool
    requires meridian { meridian ≤ 2 * 62831853071795880000000000000000 }
    requires prime { prime ≤ 2 * 62831853071795880000000000000000 }
    requires west { west ≤ 2 * 62831853071795880000000000000000 }
    requires east { east ≤ 2 * 62831853071795880000000000000000 }
    requires degrees { degrees ≤ 180 }
    ensures { result ≡ is_far_east meridian prime west east degrees }
{
    let reach = u128::from(degrees) * 174_532_925_199_433_000_000_000_000_000;
    let back = 2 * TURN - west;
    let arc = (east + back) % TURN;
    let from_west = (meridian + prime + reach + back) % TURN;
    !(TURN + west <= east) && !(TURN + east <= west) && arc + 2 * reach < from_west
}

/// Whether a parallel is more than so many degrees south of the south or north of the north. Each is a turn and an angle.
pub(crate) fn is_far_north(parallel: u128, south: u128, north: u128, degrees: u32) -> bool
    requires parallel { parallel ≤ 2 * 62831853071795880000000000000000 }
    requires south { south ≤ 2 * 62831853071795880000000000000000 }
    requires north { north ≤ 2 * 62831853071795880000000000000000 }
    requires degrees { degrees ≤ 180 }
    ensures { result ≡ is_far_north parallel south north degrees }
{
    let reach = u128::from(degrees) * 174_532_925_199_433_000_000_000_000_000;
    parallel + reach < south || north + reach < parallel
}
