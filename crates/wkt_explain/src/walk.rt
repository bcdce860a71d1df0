//! A walk through a file, which counts lines, and characters in a line.

ghost use Rattle.std.specs.Prelude.{◌≡◌, ◌+◌, ◌-◌, ◌<◌, ◌≤◌, length, take, drop};
ghost use Rattle.std.specs.List.{suffix_len};
ghost use Rattle.wkt_explain.specs.Characters.{chars, first_len};
ghost use Rattle.wkt_explain.specs.Position.{goes_on, last_line, line_number, text_in, feeds};
ghost use Rattle.wkt_explain.specs.Walk.{AreWhole, IsInLine, IsFar, IsSpot};

use crate::characters::{count_chars, first_len};
use crate::position::{feeds, first_line, last_line, text_in, without_return};

/// The most bytes of 80 characters.
const FAR: usize = 320;

/// The same, and one that may be the carriage return at the end of the line.
const AHEAD: usize = 321;

/// The most bytes of a character.
const LONGEST: usize = 4;

/// A place in a file, the number of its line, and the number of characters before it in that line.
#[derive(Clone, Copy)]
pub(crate) struct Walk<'f> {
    pub(crate) file: &'f [u8],
    place: usize,
    pub(crate) line: usize,
    pub(crate) passed: usize,
    ghost within: { place ≤ length file.now },
    ghost few: { passed ≤ place },
    ghost counted: { line ≡ line_number (take place file.now) },
    ghost chars: { passed ≡ length (chars (last_line (take place file.now))) },
    ghost whole: { AreWhole (last_line (take place file.now)) (drop place file.now) },
}

/// A place in a file: the number of its line, its column, and the parts of the line before it and from it on, as far as they
/// are shown.
#[derive(Clone, Copy)]
pub(crate) struct Spot<'f> {
    pub(crate) line: usize,
    pub(crate) column: usize,
    pub(crate) before: &'f [u8],
    pub(crate) after: &'f [u8],
}

// The bytes up to and including the last line feed.
fn lines(bytes: &[u8]) -> &[u8]
    ensures { result.now ≡ take (length bytes.now - suffix_len goes_on bytes.now) bytes.now }
{
    let (lines, _) = bytes.split_at(bytes.len() - last_line(bytes).len());
    lines
}

impl<'f> Walk<'f> {
    /// The walk at the front of a file.
    pub(crate) fn new(file: &'f [u8]) -> Walk<'f>
        ensures file { result.file.now ≡ file.now }
        ensures place { result.place ≡ 0 }
        ensures passed { result.passed ≡ 0 }
    {
        Walk {
            file,
            place: 0,
            line: 1,
            passed: 0,
        }
    }

    // The walk, restarted from the front if it has passed the place, or is too close for the characters shown before the
    // place.
    fn start(&self, place: usize) -> Walk<'f>
        ensures file { result.file.now ≡ self.now.file.now }
        ensures ahead { result.place ≤ place }
        ensures far { IsFar result.passed result.place place }
    {
        if place < self.place {
            return Walk::new(self.file);
        }
        if self.passed > 0 && place - self.place < FAR {
            return Walk::new(self.file);
        }
        *self
    }

    // Advances to the line of a place.
    fn to_line(&self, place: usize) -> Walk<'f>
        requires ahead { self.now.place ≤ place }
        requires within { place ≤ length self.now.file.now }
        ensures file { result.file.now ≡ self.now.file.now }
        ensures line { IsInLine result.file.now result.place place }
        ensures far { IsFar self.now.passed self.now.place place → IsFar result.passed result.place place }
    {
        let between = text_in(self.file, self.place, place);
        let lines = lines(between);
        if lines.is_empty() {
            return *self;
        }
        Walk {
            file: self.file,
            place: self.place + lines.len(),
            line: self.line + feeds(lines),
            passed: 0,
        }
    }

    // Advances by one character in the line of a place.
    fn next(&self, place: usize) -> Walk<'f>
        requires line { IsInLine self.now.file.now self.now.place place }
        requires ahead { self.now.place + 4 ≤ place }
        requires within { place ≤ length self.now.file.now }
        ensures file { result.file.now ≡ self.now.file.now }
        ensures line { IsInLine result.file.now result.place place }
        ensures on { self.now.place < result.place }
        ensures most { result.place ≤ self.now.place + 4 }
    {
        let (_, rest) = self.file.split_at(self.place);
        let len = first_len(rest);
        Walk {
            file: self.file,
            place: self.place + len,
            line: self.line,
            passed: self.passed + 1,
        }
    }

    // Advances to the line of a place, and in it as long as at least 80 characters remain before the place.
    fn near(&self, place: usize) -> Walk<'f>
        requires { place ≤ length self.now.file.now }
        ensures file { result.file.now ≡ self.now.file.now }
        ensures line { IsInLine result.file.now result.place place }
        ensures far { IsFar result.passed result.place place }
    {
        let start = self.start(place);
        let mut walk = start.to_line(place);
        while place - walk.place >= FAR + LONGEST {
            walk = walk.next(place);
        }
        walk
    }

    /// Advances to a place.
    pub(crate) fn go(&mut self, place: usize) -> Spot<'f>
        requires { place ≤ length self.old.file.now }
        ensures file { self.new.file.now ≡ self.old.file.now }
        ensures spot { IsSpot result (take place self.old.file.now) (drop place self.old.file.now) }
    {
        let walk = self.near(place);
        *self = walk;
        let before = text_in(walk.file, walk.place, place);
        let (_, after) = walk.file.split_at(place);
        let (ahead, _) = after.split_at(AHEAD.min(after.len()));
        Spot {
            line: walk.line,
            column: walk.passed + count_chars(before) + 1,
            before,
            after: without_return(first_line(ahead)),
        }
    }
}
