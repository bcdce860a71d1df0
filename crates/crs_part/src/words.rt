//! The words of values, and the value that a word means.

ghost use Rattle.std.specs.Prelude.{◌≡◌, map};
ghost use Rattle.std.specs.Char.{to_ascii_lowercase};
ghost use Rattle.crs_part.specs.Words.{direction_word, directions_listed, first_word, kinds_listed, same_word, system_word};

use crate::systems::{Direction, SystemKind};

/// A value that texts name by a word.
pub trait Word: Copy {
    ghost use Rattle.std.specs.Prelude.{ℕ, List};

    ghost spelled: { Self → List ℕ };

    /// The word in canonical spelling.
    fn word(self) -> &'static [u8]
        ensures { result.now ≡ spelled self };
}

/// Whether two words are the same apart from letter case.
#[inline(always)]
pub fn same_word(a: &[u8], b: &[u8]) -> bool
    ensures { result ≡ same_word a.now b.now }
{
    if a.len() != b.len() {
        return false;
    }
    a.eq_ignore_ascii_case(b)
}

/// The first of the values that has this word, in any letter case.
pub fn first_of<T: Word>(values: &[T], bytes: &[u8]) -> Option<T>
    ensures { result ≡ first_word T.spelled values.now (map to_ascii_lowercase bytes.now) }
{
    let mut i = 0;
    while i < values.len() {
        if same_word(values[i].word(), bytes) {
            return Some(values[i]);
        }
        i += 1;
    }
    None
}

static KINDS: [SystemKind; 4] = [
    SystemKind::Ellipsoidal,
    SystemKind::Cartesian,
    SystemKind::Spherical,
    SystemKind::Vertical,
];

static DIRECTIONS: [Direction; 21] = [
    Direction::North,
    Direction::NorthNorthEast,
    Direction::NorthEast,
    Direction::EastNorthEast,
    Direction::East,
    Direction::EastSouthEast,
    Direction::SouthEast,
    Direction::SouthSouthEast,
    Direction::South,
    Direction::SouthSouthWest,
    Direction::SouthWest,
    Direction::WestSouthWest,
    Direction::West,
    Direction::WestNorthWest,
    Direction::NorthWest,
    Direction::NorthNorthWest,
    Direction::GeocentricX,
    Direction::GeocentricY,
    Direction::GeocentricZ,
    Direction::Up,
    Direction::Down,
];

impl Word for SystemKind {
    ghost spelled = { system_word };

    #[inline(always)]
    fn word(self) -> &'static [u8] {
        match self {
            SystemKind::Ellipsoidal => b"ellipsoidal",
            SystemKind::Cartesian => b"Cartesian",
            SystemKind::Spherical => b"spherical",
            SystemKind::Vertical => b"vertical",
        }
    }
}

impl SystemKind {
    /// The kind that the word means, in any letter case.
    pub fn of_word(bytes: &[u8]) -> Option<SystemKind>
        ensures { result ≡ first_word system_word kinds_listed (map to_ascii_lowercase bytes.now) }
    {
        first_of(&KINDS, bytes)
    }
}

impl Word for Direction {
    ghost spelled = { direction_word };

    #[inline(always)]
    fn word(self) -> &'static [u8] {
        match self {
            Direction::North => b"north",
            Direction::NorthNorthEast => b"northNorthEast",
            Direction::NorthEast => b"northEast",
            Direction::EastNorthEast => b"eastNorthEast",
            Direction::East => b"east",
            Direction::EastSouthEast => b"eastSouthEast",
            Direction::SouthEast => b"southEast",
            Direction::SouthSouthEast => b"southSouthEast",
            Direction::South => b"south",
            Direction::SouthSouthWest => b"southSouthWest",
            Direction::SouthWest => b"southWest",
            Direction::WestSouthWest => b"westSouthWest",
            Direction::West => b"west",
            Direction::WestNorthWest => b"westNorthWest",
            Direction::NorthWest => b"northWest",
            Direction::NorthNorthWest => b"northNorthWest",
            Direction::GeocentricX => b"geocentricX",
            Direction::GeocentricY => b"geocentricY",
            Direction::GeocentricZ => b"geocentricZ",
            Direction::Up => b"up",
            Direction::Down => b"down",
        }
    }
}

impl Direction {
    /// The direction that the word means, in any letter case.
    pub fn of_word(bytes: &[u8]) -> Option<Direction>
        ensures { result ≡ first_word direction_word directions_listed (map to_ascii_lowercase bytes.now) }
    {
        first_of(&DIRECTIONS, bytes)
    }
}
