//! Axes on one line.

ghost use Rattle.std.specs.Prelude.{◌≡◌};
ghost use Rattle.std.specs.List.{list_any};
ghost use Rattle.std.specs.Option.{option_map};
ghost use Rattle.crs_part.specs.Slots.{items_of};
ghost use Rattle.crs_exact.specs.Said.{sentence};
ghost use Rattle.crs_sense.specs.Axes.{line_of, shares_line, share_lines, axes_said, axes};

use crs_exact::{END, Finding, Piece, name_in};
use crs_part::{Axis, Direction, NonEmpty, Single};

/// The system, if two of its axes, neither with a meridian, have the same direction or opposite ones.
pub(crate) fn odd_axes(crs: &Single) -> Option<Finding<'_>>
    ensures { option_map sentence result ≡ axes crs.now }
{
    if !all_share_lines(crs.axes()) {
        return None;
    }
    Some(axes_said(name_in(crs)))
}

fn axes_said(name: &[u8]) -> Finding<'_>
    ensures { sentence result ≡ axes_said name.now }
{
    Finding::of_words([
        Piece::Text(b"two axes of \""),
        Piece::Text(name),
        Piece::Text(b"\" lie on one line: they have the same direction, or opposite ones"),
        END,
        END,
        END,
        END,
        END,
        END,
        END,
        END,
        END,
    ])
}

fn all_share_lines(axes: &NonEmpty<Axis>) -> bool
    ensures { result ≡ share_lines (items_of axes.now) }
{
    let others = axes.others.as_slice();
    some_shares_line(&axes.first, others) || share_lines(others)
}

fn share_lines(axes: &[Axis]) -> bool
    ensures { result ≡ share_lines axes.now }
{
    let mut rest = axes;
    while let Some((axis, others)) = rest.split_first() {
        if some_shares_line(axis, others) {
            return true;
        }
        rest = others;
    }
    false
}

fn some_shares_line(axis: &Axis, others: &[Axis]) -> bool
    ensures { result ≡ list_any (shares_line axis.now) others.now }
{
    others.iter().any(|other| shares_line(axis, other))
}

fn shares_line(one: &Axis, other: &Axis) -> bool
    ensures { result ≡ shares_line one.now other.now }
{
    line_of(one.direction) == line_of(other.direction)
        && one.meridian.is_none()
        && other.meridian.is_none()
}

// A number for each line: opposite directions have the same one.
fn line_of(direction: Direction) -> u8
    ensures { result ≡ line_of direction }
{
    match direction {
        Direction::North => 0,
        Direction::South => 0,
        Direction::NorthNorthEast => 1,
        Direction::SouthSouthWest => 1,
        Direction::NorthEast => 2,
        Direction::SouthWest => 2,
        Direction::EastNorthEast => 3,
        Direction::WestSouthWest => 3,
        Direction::East => 4,
        Direction::West => 4,
        Direction::EastSouthEast => 5,
        Direction::WestNorthWest => 5,
        Direction::SouthEast => 6,
        Direction::NorthWest => 6,
        Direction::SouthSouthEast => 7,
        Direction::NorthNorthWest => 7,
        Direction::GeocentricX => 8,
        Direction::GeocentricY => 9,
        Direction::GeocentricZ => 10,
        Direction::Up => 11,
        Direction::Down => 11,
    }
}
