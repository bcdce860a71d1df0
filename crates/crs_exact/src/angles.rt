//! Angles in their units, compared exactly.

ghost use Rattle.std.specs.Prelude.{◌≡◌, ◌<◌, ◌≤◌, ◌+◌, ◌-◌, ◌*◌, ◌^◌, ◌&&◌, ◌||◌};
ghost use Rattle.std.specs.Option.{option_map};
ghost use Rattle.crs_exact.specs.Angles.{is_packed_unit, is_packed, is_on_side, is_at, is_elsewhere};

use crate::names::begins;
use crate::sizes::{is_below, is_beyond, is_product_below, is_product_beyond};
use crs_number::Decimal;
use crs_part::UnitDefinition;

/// The digits of a degree of 0.0174532925199433 radians.
const DEGREE: u128 = 174_532_925_199_433;

/// A turn in degrees with six decimal places.
const TURN: u128 = 360_000_000;

/// Whether a unit of this name packs degrees, minutes and seconds into one number.
pub fn is_packed_unit(name: &[u8]) -> bool
    ensures { result ≡ is_packed_unit name.now }
{
    begins(name, b"sexagesimal")
}

/// Whether there is a unit, and it packs degrees, minutes and seconds into one number.
pub fn is_packed(unit: Option<&UnitDefinition>) -> bool
    ensures { result ≡ is_packed (option_map (λ unit. unit.now) unit.entry) }
{
    match unit {
        Some(unit) => is_packed_unit(unit.name.as_bytes()),
        None => false,
    }
}

/// Whether the angle is at so many degrees with these decimal places east or west, but for the slack.
pub fn is_at(
    value: Decimal,
    unit: Option<&UnitDefinition>,
    west: bool,
    size: u128,
    slack: u128,
    places: u32,
) -> bool
    requires size { size < 10 ^ 17 }
    requires slack { slack < 10 ^ 17 }
    requires places { places ≤ 24 }
    ensures { result ≡ is_at value (option_map (λ unit. unit.now) unit.entry) west size slack places }
{
    let low = size.saturating_sub(slack);
    let high = size + slack;
    if !is_on_side(value, west, size, slack) {
        return false;
    }
    match unit {
        Some(unit) => {
            !is_product_below(value, unit.factor, low * DEGREE, places + 16)
                && !is_product_beyond(value, unit.factor, high * DEGREE, places + 16)
        }
        None => !is_below(value, low, places) && !is_beyond(value, high, places),
    }
}

fn is_on_side(value: Decimal, west: bool, size: u128, slack: u128) -> bool
    ensures { result ≡ is_on_side value west size slack }
{
    size <= slack || (value.coefficient() < 0) == west
}

/// Whether the angle is neither at so many millionths of a degree east or west nor a whole turn from there, but for the slack.
pub fn is_elsewhere(
    value: Decimal,
    unit: Option<&UnitDefinition>,
    west: bool,
    size: u128,
    slack: u128,
) -> bool
    requires size { size < 10 ^ 17 }
    requires slack { slack < 10 ^ 17 }
    ensures { result ≡ is_elsewhere value (option_map (λ unit. unit.now) unit.entry) west size slack }
{
    !is_packed(unit)
        && !is_at(value, unit, west, size, slack, 6)
        && !is_at(value, unit, !west, TURN.saturating_sub(size), slack, 6)
}
