//! Devices in memory, for tests: they split the data into pieces, and can be set to fail.
ghost use Rattle.std.specs.Prelude.{◌≡◌, ◌<◌, ◌≤◌, [], Some, None, Ok, IfOk, length};
ghost use Rattle.std.specs.Io.KnownBytes.{ReadConsumes};
ghost use Rattle.byte_io.specs.Device.{CountsFailure, CountsNone, Moves, source_of, sink_of};

use crate::fault::DeviceFault;
use crate::log::Log;
use crate::sink::Sink;
use crate::source::Source;
use crate::tally::Tally;
use std::alloc::Global;

/// How a source in memory behaves at its end.
#[derive(Clone, Copy, Debug, PartialEq, Eq)]
pub enum Then {
    /// Each further call gives nothing.
    Ends,
    /// Each further call fails.
    Fails,
}

/// A source in memory that gives at most `piece` bytes a call.
#[derive(Drop)]
pub struct Pieces<'a> {
    rest: &'a [u8],
    piece: usize,
    then: Then,
    given: Log,
    failures: Tally,
    ends: Tally,
}

impl<'a> Pieces<'a> {
    /// A source of these bytes. A piece of 0 bytes counts as one of 1.
    pub fn new(rest: &'a [u8], piece: usize, then: Then) -> Pieces<'a>
        ensures left { ⟦<Pieces<'a> as Source>⟧.state result ≡ source_of (Some rest.entry.now) }
        ensures cut { (result.piece ≡ piece) × (result.then ≡ then) }
    {
        Pieces {
            rest,
            piece,
            then,
            given: Log::empty(),
            failures: Tally::none(),
            ends: Tally::none(),
        }
    }
}

impl Source for Pieces<'_> {
    ghost state = { λ s. record {
      left = Some s.rest.now;
      given = s.given.bytes;
      failures = s.failures.count;
      ends = s.ends.count;
    } };

    fn read_some(&mut self, buf: &mut [u8]) -> Result<usize, DeviceFault> {
        if self.rest.is_empty() && self.then == Then::Fails {
            self.failures = Tally::after(&self.failures);
            return Err(DeviceFault);
        }
        let count = self.rest.len().min(buf.len()).min(self.piece.max(1));
        if count == 0 && !buf.is_empty() {
            self.ends = Tally::after(&self.ends);
        }
        let (front, back) = self.rest.split_at(count);
        buf[..count].copy_from_slice(front);
        self.rest = back;
        self.given.note(front);
        Ok(count)
    }
}

/// A source that gives the same byte forever, one a call.
#[derive(Drop)]
pub struct Endless {
    byte: u8,
    count: u64,
    given: Log,
    failures: Tally,
    ends: Tally,
}

impl Endless {
    /// A source of this byte.
    pub fn new(byte: u8) -> Endless
        ensures left { ⟦<Endless as Source>⟧.state result ≡ source_of None }
        ensures byte { (result.byte ≡ byte) × (result.count ≡ 0) }
    {
        Endless {
            byte,
            count: 0,
            given: Log::empty(),
            failures: Tally::none(),
            ends: Tally::none(),
        }
    }

    /// The number of bytes given so far.
    pub fn count(&self) -> u64
        ensures { result ≡ self.now.count }
    {
        self.count
    }
}

impl Source for Endless {
    ghost state = { λ s. record {
      left = None;
      given = s.given.bytes;
      failures = s.failures.count;
      ends = s.ends.count;
    } };

    fn read_some(&mut self, buf: &mut [u8]) -> Result<usize, DeviceFault>
        ensures bound { IfOk result (λ n. n ≤ length buf.new) }
        ensures bytes { ReadConsumes None None result buf.new }
        ensures given { Moves result buf.new self.old.given.bytes self.new.given.bytes }
        ensures failure { CountsFailure result self.old.failures.count self.new.failures.count }
        ensures end { CountsNone result (length buf.new) self.old.ends.count self.new.ends.count }
        ensures endless { 0 < length buf.old → result ≡ Ok 1 }
    {
        if buf.is_empty() {
            return Ok(0);
        }
        buf[0] = self.byte;
        self.count = self.count.saturating_add(1);
        self.given.note(&buf[..1]);
        Ok(1)
    }
}

/// How a sink in memory behaves once it is full.
#[derive(Clone, Copy, Debug, PartialEq, Eq)]
pub enum Full {
    /// Each further call takes nothing.
    TakesNone,
    /// Each further call fails.
    Fails,
}

/// A sink in memory that takes at most `piece` bytes a call, and `room` in total.
#[derive(Drop)]
pub struct Room {
    held: Vec<u8>,
    piece: usize,
    room: usize,
    full: Full,
    taken: Log,
    failures: Tally,
    stalls: Tally,
}

impl Room {
    /// An empty sink of `room` bytes in total.
    pub fn new(alloc: Global, piece: usize, room: usize, full: Full) -> Room
        ensures empty { ⟦<Room as Sink>⟧.state result ≡ sink_of (Some []) }
        ensures cut { (result.piece ≡ piece) × (result.room ≡ room) × (result.full ≡ full) }
    {
        Room {
            held: Vec::new(alloc),
            piece,
            room,
            full,
            taken: Log::empty(),
            failures: Tally::none(),
            stalls: Tally::none(),
        }
    }

    /// The bytes written so far.
    pub fn taken(&self) -> &[u8]
        ensures { Some result.now ≡ (⟦<Room as Sink>⟧.state self.now).written }
    {
        &self.held
    }
}

impl Sink for Room {
    ghost state = { λ s. record {
      written = Some s.held.items;
      taken = s.taken.bytes;
      failures = s.failures.count;
      stalls = s.stalls.count;
      openings = 1;
    } };

    fn write_some(&mut self, buf: &[u8]) -> Result<usize, DeviceFault> {
        let count = self.room.min(buf.len()).min(self.piece.max(1));
        if count == 0 && !buf.is_empty() {
            if self.full == Full::Fails {
                self.failures = Tally::after(&self.failures);
                return Err(DeviceFault);
            }
            self.stalls = Tally::after(&self.stalls);
            return Ok(0);
        }
        if self.held.extend_from_slice(&buf[..count]).is_err() {
            self.failures = Tally::after(&self.failures);
            return Err(DeviceFault);
        }
        self.room -= count;
        self.taken.note(&buf[..count]);
        Ok(count)
    }
}
