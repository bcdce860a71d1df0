//! The meridian of 180 degrees.

ghost use Rattle.std.specs.Prelude.{◌≡◌, true, false, pos};
ghost use Rattle.crs_number.specs.Numeral.{signed};
ghost use Rattle.crs_export.specs.Boxes.{is_less, value_of, half_turn, has_west, has_east};

use crs_number::Decimal;
use crs_part::BoundingBox;

/// Whether the first decimal is less than the other one.
pub fn is_less(one: &Decimal, other: &Decimal) -> bool
    ensures { result ≡ is_less (value_of one.now) (value_of other.now) }
{
    one.cmp(other).is_lt()
}

// 180, or -180.
fn half_turn(negative: bool) -> Decimal
    ensures coefficient { result.coefficient ≡ signed negative 18 }
    ensures exponent { result.exponent ≡ pos 1 }
{
    match Decimal::from_digits(negative, 180, 0) {
        Some(decimal) => decimal,
        None => unreachable!(),
    }
}

// Whether the decimal is less than 180.
fn is_west(decimal: &Decimal) -> bool
    ensures { result ≡ is_less (value_of decimal.now) (half_turn false) }
{
    is_less(decimal, &half_turn(false))
}

// Whether the decimal is greater than -180.
fn is_east(decimal: &Decimal) -> bool
    ensures { result ≡ is_less (half_turn true) (value_of decimal.now) }
{
    is_less(&half_turn(true), decimal)
}

/// Whether a box that crosses the meridian has a part west of it.
pub fn has_west(found: &BoundingBox) -> bool
    ensures { result ≡ has_west found.now }
{
    is_west(&found.west)
}

/// Whether a box that crosses the meridian has a part east of it.
pub fn has_east(found: &BoundingBox) -> bool
    ensures { result ≡ has_east found.now }
{
    is_east(&found.east)
}
