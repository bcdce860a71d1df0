//! Points in bounding boxes. Decimals are compared exactly, without arithmetic.

ghost use Rattle.std.specs.Prelude.{IsSomeAnd, ◌≡◌, ◌≤◌, ◌*◌, ◌%◌, ◌↔◌, pos, IsTrue, IfSome, Some};
ghost use Rattle.std.specs.List.{Any, prefix_len};
ghost use Rattle.crs_number.specs.Numeral.{signed};
ghost use Rattle.crs_number.specs.Value.{units};
ghost use Rattle.crs_value.specs.Usages.{IsAtMost, IsBelow, IsBetween, IsWithin, IsOnMeridians, IsInBox, HasBoxAround, HasPoint};
ghost use Rattle.crs_value.specs.Points.{is_no_comma, before_comma, without_blank, behind_comma, IsOnGlobe, Names};

use crate::search::usages::usages_of;
use crs_number::Decimal;
use crs_part::{BoundingBox, CrsParts, Usage};

/// A latitude and a longitude, in degrees.
#[derive(Clone, Copy, Debug, PartialEq, Eq)]
pub struct Point {
    pub latitude: Decimal,
    pub longitude: Decimal,
}

impl Point {
    /// The point on the globe that a text names: its latitude, a comma, perhaps a blank, and its longitude.
    pub fn read(text: &[u8]) -> Option<Point>
        ensures found { IfSome result (λ p. Names text.now p) }
        ensures only { (p : Point) → Names text.now p → result ≡ Some p }
    {
        let (latitude, rest) = text.split_at(before_comma(text));
        let Ok(latitude) = Decimal::from_numeral(latitude) else {
            return None;
        };
        let Ok(longitude) = Decimal::from_numeral(behind_comma(rest)) else {
            return None;
        };
        let point = Point {
            latitude,
            longitude,
        };
        if !is_on_globe(&point) {
            return None;
        }
        Some(point)
    }
}

fn is_no_comma(b: u8) -> bool
    ensures { result ≡ is_no_comma b }
{
    b != b','
}

// The number of bytes before the first comma.
fn before_comma(text: &[u8]) -> usize
    ensures { result ≡ prefix_len is_no_comma text.now }
{
    text.iter().take_while(|b| is_no_comma(**b)).count()
}

fn without_blank(text: &[u8]) -> &[u8]
    ensures { result.now ≡ without_blank text.now }
{
    let Some((first, others)) = text.split_first() else {
        return text;
    };
    if *first == b' ' {
        return others;
    }
    text
}

fn behind_comma(text: &[u8]) -> &[u8]
    ensures { result.now ≡ behind_comma text.now }
{
    let Some((_, others)) = text.split_first() else {
        return text;
    };
    without_blank(others)
}

fn is_on_globe(point: &Point) -> bool
    ensures { IsTrue result ↔ IsOnGlobe point.now }
{
    is_within(&point.latitude, 9) && is_within(&point.longitude, 18)
}

// Whether a value is at most this many tens, and at least as many below 0.
fn is_within(value: &Decimal, tens: u64) -> bool
    requires few { tens ≤ 99 }
    requires last_digit { ¬ (tens % 10 ≡ 0) }
    ensures { IsTrue result ↔ IsWithin (tens * 10) value.now }
{
    let Some(low) = limit(true, tens) else {
        return false;
    };
    let Some(high) = limit(false, tens) else {
        return false;
    };
    is_between(&low, value, &high)
}

// A whole number of tens.
fn limit(negative: bool, tens: u64) -> Option<Decimal>
    requires few { tens ≤ 99 }
    requires last_digit { ¬ (tens % 10 ≡ 0) }
    ensures { IsSomeAnd result (λ d. units d.coefficient d.exponent ≡ units (signed negative (tens * 10)) (pos 0)) }
{
    Decimal::from_digits(negative, tens * 10, 0)
}

/// Whether a bounding box of the reference system contains the point.
pub fn has_point(crs: &CrsParts, point: &Point) -> bool
    ensures { IsTrue result ↔ HasPoint point.now crs.now }
{
    some_has_box_around(usages_of(crs), point)
}

fn some_has_box_around(usages: &[Usage], point: &Point) -> bool
    ensures { IsTrue result ↔ Any (HasBoxAround point.now) usages.now }
{
    let mut rest = usages;
    while let Some((usage, others)) = rest.split_first() {
        if has_box_around(usage, point) {
            return true;
        }
        rest = others;
    }
    false
}

fn has_box_around(usage: &Usage, point: &Point) -> bool
    ensures { IsTrue result ↔ HasBoxAround point.now usage.now }
{
    match &usage.bounding_box {
        Some(found) => is_in_box(found, point),
        None => false,
    }
}

fn is_in_box(found: &BoundingBox, point: &Point) -> bool
    ensures { IsTrue result ↔ IsInBox point.now found.now }
{
    is_between(&found.south, &point.latitude, &found.north)
        && is_on_meridians(&found.west, &point.longitude, &found.east)
}

// If west is greater than east, the box crosses the meridian of 180 degrees, where the longitudes end.
fn is_on_meridians(west: &Decimal, longitude: &Decimal, east: &Decimal) -> bool
    ensures { IsTrue result ↔ IsOnMeridians west.now longitude.now east.now }
{
    if is_below(east, west) {
        return is_within(longitude, 18)
            && (is_at_most(west, longitude) || is_at_most(longitude, east));
    }
    is_between(west, longitude, east)
}

fn is_between(low: &Decimal, value: &Decimal, high: &Decimal) -> bool
    ensures { IsTrue result ↔ IsBetween low.now value.now high.now }
{
    is_at_most(low, value) && is_at_most(value, high)
}

fn is_at_most(one: &Decimal, other: &Decimal) -> bool
    ensures { IsTrue result ↔ IsAtMost one.now other.now }
{
    !other.cmp(one).is_lt()
}

fn is_below(one: &Decimal, other: &Decimal) -> bool
    ensures { IsTrue result ↔ IsBelow one.now other.now }
{
    one.cmp(other).is_lt()
}
