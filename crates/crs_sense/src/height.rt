//! Vertical systems whose axis runs against their name.

ghost use Rattle.std.specs.Prelude.{◌≡◌};
ghost use Rattle.std.specs.Option.{option_map};
ghost use Rattle.crs_exact.specs.Said.{sentence};
ghost use Rattle.crs_sense.specs.Height.{is_against, height_said, against, height};

use crs_exact::{END, Finding, Piece, has_part};
use crs_part::{Direction, Single, Vertical, Word};

/// The system, if it is vertical, with `height` in its name and an axis down, or with `depth` and an axis up.
pub(crate) fn odd_height(crs: &Single) -> Option<Finding<'_>>
    ensures { option_map sentence result ≡ height crs.now }
{
    match crs {
        Single::Geodetic(_) => None,
        Single::Projected(_) => None,
        Single::Vertical(crs) => against(crs),
    }
}

fn against(crs: &Vertical) -> Option<Finding<'_>>
    ensures { option_map sentence result ≡ against crs.now }
{
    let direction = crs.axes.first.direction;
    if !is_against(direction, crs.name.as_bytes()) {
        return None;
    }
    Some(height_said(crs.name.as_bytes(), direction))
}

fn height_said(name: &[u8], direction: Direction) -> Finding<'_>
    ensures { sentence result ≡ height_said name.now direction }
{
    Finding::of_words([
        Piece::Text(b"\""),
        Piece::Text(name),
        Piece::Text(b"\", and its axis points "),
        Piece::Text(direction.word()),
        END,
        END,
        END,
        END,
        END,
        END,
        END,
        END,
    ])
}

fn is_against(direction: Direction, name: &[u8]) -> bool
    ensures { result ≡ is_against direction name.now }
{
    match direction {
        Direction::Up => has_part(name, b"depth") && !has_part(name, b"height"),
        Direction::Down => has_part(name, b"height") && !has_part(name, b"depth"),
        _ => false,
    }
}
