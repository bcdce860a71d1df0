//! Bounding boxes that are none.

ghost use Rattle.std.specs.Prelude.{◌≡◌};
ghost use Rattle.std.specs.List.{find};
ghost use Rattle.std.specs.Option.{option_map};
ghost use Rattle.crs_exact.specs.Said.{sentence};
ghost use Rattle.crs_sense.specs.Box.{is_less, is_box_odd, is_off_globe, has_no_width, has_box_odd, is_usage_odd, box_what, box_said, boxes};

use crate::swapped::is_swapped;
use crs_exact::{END, Finding, Piece, is_beyond};
use crs_number::Decimal;
use crs_part::{BoundingBox, Usage};

/// The first box of these usages that has a latitude beyond 90 or a longitude beyond 180, no height, no width, or runs the long way
/// round.
pub(crate) fn odd_boxes(usages: &[Usage]) -> Option<Finding<'_>>
    ensures { option_map sentence result ≡ boxes usages.now }
{
    let Some(usage) = odd_usage(usages) else {
        return None;
    };
    match &usage.bounding_box {
        Some(found) => Some(box_said(found)),
        None => None,
    }
}

fn odd_usage(usages: &[Usage]) -> Option<&Usage>
    ensures { option_map (λ usage. usage.now) result ≡ find is_usage_odd usages.now }
{
    usages.iter().find(|usage| has_box_odd(&usage.bounding_box))
}

fn has_box_odd(found: &Option<BoundingBox>) -> bool
    ensures { result ≡ has_box_odd found.now }
{
    match found {
        Some(found) => is_box_odd(found),
        None => false,
    }
}

fn is_box_odd(found: &BoundingBox) -> bool
    ensures { result ≡ is_box_odd found.now }
{
    is_off_globe(found)
        || !is_less(&found.south, &found.north)
        || has_no_width(found)
        || is_swapped(found)
}

fn is_off_globe(found: &BoundingBox) -> bool
    ensures { result ≡ is_off_globe found.now }
{
    is_beyond(found.south, 90, 0)
        || is_beyond(found.north, 90, 0)
        || is_beyond(found.west, 180, 0)
        || is_beyond(found.east, 180, 0)
}

fn has_no_width(found: &BoundingBox) -> bool
    ensures { result ≡ has_no_width found.now }
{
    found.west.coefficient() == found.east.coefficient()
        && found.west.exponent() == found.east.exponent()
}

fn is_less(left: &Decimal, right: &Decimal) -> bool
    ensures { result ≡ is_less left.now right.now }
{
    left.cmp(right).is_lt()
}

fn box_said(found: &BoundingBox) -> Finding<'_>
    ensures { sentence result ≡ box_said found.now }
{
    Finding::of_words([
        Piece::Text(b"the box has south "),
        Piece::Number(&found.south),
        Piece::Text(b", west "),
        Piece::Number(&found.west),
        Piece::Text(b", north "),
        Piece::Number(&found.north),
        Piece::Text(b", east "),
        Piece::Number(&found.east),
        Piece::Text(b": "),
        Piece::Text(box_what(found)),
        END,
        END,
    ])
}

fn box_what(found: &BoundingBox) -> &'static [u8]
    ensures { result.now ≡ box_what found.now }
{
    if is_beyond(found.south, 90, 0) || is_beyond(found.north, 90, 0) {
        return b"a latitude ends at 90 degrees";
    }
    if is_beyond(found.west, 180, 0) || is_beyond(found.east, 180, 0) {
        return b"a longitude ends at 180 degrees";
    }
    if !is_less(&found.south, &found.north) {
        return b"its south is not below its north";
    }
    if is_swapped(found) {
        return b"it runs the long way, over the antimeridian; are west and east swapped?";
    }
    b"its west is its east"
}
