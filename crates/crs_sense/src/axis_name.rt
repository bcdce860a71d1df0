//! Axes whose name tells another direction.

ghost use Rattle.std.specs.Prelude.{◌≡◌};
ghost use Rattle.std.specs.List.{find};
ghost use Rattle.std.specs.Option.{option_map};
ghost use Rattle.crs_part.specs.Slots.{items_of};
ghost use Rattle.crs_exact.specs.Said.{sentence};
ghost use Rattle.crs_sense.specs.AxisName.{tells_north, tells_east, tells_south, tells_west, tells_east_or_west, tells_up, tells_down, is_north, is_east, is_south, is_west, is_up, is_down, tells_other_side, tells_other_way, is_axis_odd, axis_name_said, axis_name};

use crs_exact::{END, Finding, Piece, is_called, is_named};
use crs_part::{Axis, Direction, NonEmpty, Single, Word};

/// The first axis of the system, without a meridian, whose name tells another direction.
pub(crate) fn odd_axis_name(crs: &Single) -> Option<Finding<'_>>
    ensures { option_map sentence result ≡ axis_name crs.now }
{
    match odd_axis(crs.axes()) {
        Some(axis) => Some(axis_name_said(axis)),
        None => None,
    }
}

fn axis_name_said(axis: &Axis) -> Finding<'_>
    ensures { sentence result ≡ axis_name_said axis.now }
{
    Finding::of_words([
        Piece::Text(b"the axis \""),
        Piece::Text(axis.name.as_bytes()),
        Piece::Text(b"\" points "),
        Piece::Text(axis.direction.word()),
        END,
        END,
        END,
        END,
        END,
        END,
        END,
        END,
    ])
}

fn odd_axis(axes: &NonEmpty<Axis>) -> Option<&Axis>
    ensures { option_map (λ axis. axis.now) result ≡ find is_axis_odd (items_of axes.now) }
{
    if is_axis_odd(&axes.first) {
        return Some(&axes.first);
    }
    other_odd_axis(axes.others.as_slice())
}

fn other_odd_axis(axes: &[Axis]) -> Option<&Axis>
    ensures { option_map (λ axis. axis.now) result ≡ find is_axis_odd axes.now }
{
    axes.iter().find(|axis| is_axis_odd(axis))
}

fn is_axis_odd(axis: &Axis) -> bool
    ensures { result ≡ is_axis_odd axis.now }
{
    let name = axis.name.as_bytes();
    axis.meridian.is_none()
        && (tells_other_side(axis.direction, name) || tells_other_way(axis.direction, name))
}

// Whether the name tells a direction of the horizon, and not this one.
fn tells_other_side(direction: Direction, name: &[u8]) -> bool
    ensures { result ≡ tells_other_side direction name.now }
{
    (tells_north(name) && !is_north(direction))
        || (tells_east(name) && !is_east(direction))
        || (tells_south(name) && !is_south(direction))
        || (tells_west(name) && !is_west(direction))
}

// Whether it tells another direction, and not this one.
fn tells_other_way(direction: Direction, name: &[u8]) -> bool
    ensures { result ≡ tells_other_way direction name.now }
{
    (tells_east_or_west(name) && !is_east(direction) && !is_west(direction))
        || (tells_up(name) && !is_up(direction))
        || (tells_down(name) && !is_down(direction))
}

fn tells_north(name: &[u8]) -> bool
    ensures { result ≡ tells_north name.now }
{
    is_named(name, b"(N)")
        || is_called(name, b"northing")
        || is_called(name, b"latitude")
        || is_called(name, b"geodetic latitude")
}

fn tells_east(name: &[u8]) -> bool
    ensures { result ≡ tells_east name.now }
{
    is_named(name, b"(E)") || is_called(name, b"easting")
}

fn tells_south(name: &[u8]) -> bool
    ensures { result ≡ tells_south name.now }
{
    is_named(name, b"(S)") || is_called(name, b"southing")
}

fn tells_west(name: &[u8]) -> bool
    ensures { result ≡ tells_west name.now }
{
    is_named(name, b"(W)") || is_called(name, b"westing")
}

fn tells_east_or_west(name: &[u8]) -> bool
    ensures { result ≡ tells_east_or_west name.now }
{
    is_called(name, b"longitude") || is_called(name, b"geodetic longitude")
}

fn tells_up(name: &[u8]) -> bool
    ensures { result ≡ tells_up name.now }
{
    is_called(name, b"height")
        || is_called(name, b"gravity-related height")
        || is_called(name, b"ellipsoidal height")
}

fn tells_down(name: &[u8]) -> bool
    ensures { result ≡ tells_down name.now }
{
    is_called(name, b"depth")
}

fn is_north(direction: Direction) -> bool
    ensures { result ≡ is_north direction }
{
    match direction {
        Direction::North => true,
        _ => false,
    }
}

fn is_east(direction: Direction) -> bool
    ensures { result ≡ is_east direction }
{
    match direction {
        Direction::East => true,
        _ => false,
    }
}

fn is_south(direction: Direction) -> bool
    ensures { result ≡ is_south direction }
{
    match direction {
        Direction::South => true,
        _ => false,
    }
}

fn is_west(direction: Direction) -> bool
    ensures { result ≡ is_west direction }
{
    match direction {
        Direction::West => true,
        _ => false,
    }
}

fn is_up(direction: Direction) -> bool
    ensures { result ≡ is_up direction }
{
    match direction {
        Direction::Up => true,
        _ => false,
    }
}

fn is_down(direction: Direction) -> bool
    ensures { result ≡ is_down direction }
{
    match direction {
        Direction::Down => true,
        _ => false,
    }
}
