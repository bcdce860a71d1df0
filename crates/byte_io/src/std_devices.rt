//! std's readers and writers, as sources and sinks.

ghost use Rattle.std.specs.Prelude.{◌≡◌};
ghost use Rattle.byte_io.specs.Device.{source_of, sink_of};

use crate::fault::DeviceFault;
use crate::log::Log;
use crate::sink::Sink;
use crate::source::Source;
use crate::tally::Tally;
use std::io::{Read, Write};

/// One of std's readers as a source. Each call makes one call of the reader.
#[derive(Drop)]
pub struct Reading<R> {
    reader: R,
    given: Log,
    failures: Tally,
    ends: Tally,
}

impl<R: Read> Reading<R> {
    /// The reader as a source that has not failed.
    pub fn new(reader: R) -> Reading<R>
        ensures { ⟦<Reading<R> as Source>⟧.state result ≡ source_of (R.remaining reader) }
    {
        Reading {
            reader,
            given: Log::empty(),
            failures: Tally::none(),
            ends: Tally::none(),
        }
    }

    /// The reader in its current state.
    pub fn into_inner(self) -> R
        ensures { R.remaining result ≡ (⟦<Reading<R> as Source>⟧.state self).left }
    {
        let Reading {
            reader,
            given: _,
            failures: _,
            ends: _,
        } = self;
        reader
    }
}

impl<R: Read> Source for Reading<R> {
    ghost state = { λ s. record {
      left = R.remaining s.reader;
      given = s.given.bytes;
      failures = s.failures.count;
      ends = s.ends.count;
    } };

    fn read_some(&mut self, buf: &mut [u8]) -> Result<usize, DeviceFault> {
        match self.reader.read(buf) {
            Ok(n) => {
                if n == 0 && !buf.is_empty() {
                    self.ends = Tally::after(&self.ends);
                }
                self.given.note(&buf[..n]);
                Ok(n)
            }
            Err(_) => {
                self.failures = Tally::after(&self.failures);
                Err(DeviceFault)
            }
        }
    }
}

/// One of std's writers as a sink. Each call makes one call of the writer.
#[derive(Drop)]
pub struct Writing<W> {
    writer: W,
    taken: Log,
    failures: Tally,
    stalls: Tally,
}

impl<W: Write> Writing<W> {
    /// The writer as a sink that has not failed.
    pub fn new(writer: W) -> Writing<W>
        ensures { ⟦<Writing<W> as Sink>⟧.state result ≡ sink_of (W.contents writer) }
    {
        Writing {
            writer,
            taken: Log::empty(),
            failures: Tally::none(),
            stalls: Tally::none(),
        }
    }

    /// The writer in its current state.
    pub fn into_inner(self) -> W
        ensures { W.contents result ≡ (⟦<Writing<W> as Sink>⟧.state self).written }
    {
        let Writing {
            writer,
            taken: _,
            failures: _,
            stalls: _,
        } = self;
        writer
    }
}

impl<W: Write> Sink for Writing<W> {
    ghost state = { λ s. record {
      written = W.contents s.writer;
      taken = s.taken.bytes;
      failures = s.failures.count;
      stalls = s.stalls.count;
      openings = 1;
    } };

    fn write_some(&mut self, buf: &[u8]) -> Result<usize, DeviceFault> {
        match self.writer.write(buf) {
            Ok(n) => {
                if n == 0 && !buf.is_empty() {
                    self.stalls = Tally::after(&self.stalls);
                }
                self.taken.note(&buf[..n]);
                Ok(n)
            }
            Err(_) => {
                self.failures = Tally::after(&self.failures);
                Err(DeviceFault)
            }
        }
    }
}
