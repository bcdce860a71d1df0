//! Words of kinds and directions, and digits.

ghost use Rattle.std.specs.Prelude.{◌≡◌, ◌++◌, IfSome};
ghost use Rattle.crs_part.specs.Words.{system_word, direction_word};
ghost use Rattle.wkt_canonical.specs.Reads.{ReadsDigit};

use crate::front::behind;
use crs_part::{Direction, SystemKind, Word};

/// The letters at the front, and the rest after them, which begins with another character.
fn letters(bytes: &[u8]) -> Option<(&[u8], &[u8])>
    ensures { IfSome result (λ found. bytes.now ≡ found.0.now ++ found.1.now) }
{
    let count = bytes.iter().position(|byte| !byte.is_ascii_alphabetic())?;
    let (word, rest) = bytes.split_at(count);
    Some((word, rest))
}

/// A kind of coordinate system, and the rest after it.
pub(crate) fn kind(bytes: &[u8]) -> Option<(SystemKind, &[u8])>
    ensures { IfSome result (λ found. bytes.now ≡ system_word found.0 ++ found.1.now) }
{
    let (word, rest) = letters(bytes)?;
    let kind = SystemKind::of_word(word)?;
    if kind.word() != word {
        return None;
    }
    Some((kind, rest))
}

/// A direction that many axes have, if this is its word.
fn usual_direction(word: &[u8]) -> Option<Direction>
    ensures { IfSome result (λ direction. word.now ≡ direction_word direction) }
{
    if word == Direction::East.word() {
        return Some(Direction::East);
    }
    if word == Direction::North.word() {
        return Some(Direction::North);
    }
    if word == Direction::Up.word() {
        return Some(Direction::Up);
    }
    None
}

/// A direction, and the rest after it.
pub(crate) fn direction(bytes: &[u8]) -> Option<(Direction, &[u8])>
    ensures { IfSome result (λ found. bytes.now ≡ direction_word found.0 ++ found.1.now) }
{
    let (word, rest) = letters(bytes)?;
    if let Some(direction) = usual_direction(word) {
        return Some((direction, rest));
    }
    let direction = Direction::of_word(word)?;
    if direction.word() != word {
        return None;
    }
    Some((direction, rest))
}

/// A digit from 1 to 3, and the rest after it.
pub(crate) fn digit(bytes: &[u8]) -> Option<(u32, &[u8])>
    ensures { IfSome result (λ found. ReadsDigit found.0 bytes.now found.1.now) }
{
    if let Some(rest) = behind(bytes, b"1") {
        return Some((1, rest));
    }
    if let Some(rest) = behind(bytes, b"2") {
        return Some((2, rest));
    }
    let rest = behind(bytes, b"3")?;
    Some((3, rest))
}
