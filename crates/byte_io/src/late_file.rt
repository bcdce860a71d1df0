//! A source that is the file of a path, opened at its first read.

ghost use Rattle.std.specs.Prelude.{◌≡◌, false, None};
ghost use Rattle.byte_io.specs.Device.{source_of};

use crate::fault::DeviceFault;
use crate::late_source::LateSource;
use crate::log::Log;
use crate::source::Source;
use crate::tally::Tally;
use std::fs;
use std::io::Read;
use std::rt::Files;

// The state of a file: not opened yet, open, closed, closed since it failed, or failed to open.
#[derive(Drop)]
enum Turn<F> {
    Waits,
    Open(F),
    Closed,
    Failed,
    Shut,
}

/// The file of a path, which is opened at its first read, and closed at its end. No contract describes the file system.
#[derive(Drop)]
pub struct LateFile<'a, R: Files> {
    rt: &'a R,
    path: &'a str,
    turn: Turn<R::File>,
    given: Log,
    failures: Tally,
    ends: Tally,
}

impl<'a, R: Files> LateFile<'a, R> {
    /// The file of a path. Nothing is opened yet.
    pub fn new(rt: &'a R, path: &'a str) -> LateFile<'a, R>
        ensures path { result.path ≡ path.entry }
        ensures fresh { ⟦<LateFile<'a, R> as Source>⟧.state result ≡ source_of None }
        ensures waits { ⟦<LateFile<'a, R> as LateSource>⟧.shut result ≡ false }
        ensures unopened { ⟦<LateFile<'a, R> as LateSource>⟧.held result ≡ false }
    {
        LateFile {
            rt,
            path,
            turn: Turn::Waits,
            given: Log::empty(),
            failures: Tally::none(),
            ends: Tally::none(),
        }
    }
}

impl<R: Files> Source for LateFile<'_, R> {
    ghost state = { λ s. record {
      left = None;
      given = s.given.bytes;
      failures = s.failures.count;
      ends = s.ends.count;
    } };

    fn read_some(&mut self, buf: &mut [u8]) -> Result<usize, DeviceFault> {
        if matches!(&self.turn, Turn::Waits) {
            self.turn = match fs::open(self.rt, self.path) {
                Ok(file) => Turn::Open(file),
                Err(_) => Turn::Shut,
            };
        }
        let read = match &mut self.turn {
            Turn::Open(file) => file.read(buf).map_err(|_| DeviceFault),
            Turn::Closed => Ok(0),
            Turn::Waits => Err(DeviceFault),
            Turn::Failed => Err(DeviceFault),
            Turn::Shut => Err(DeviceFault),
        };
        match read {
            Ok(n) => {
                if n == 0 && !buf.is_empty() {
                    self.ends = Tally::after(&self.ends);
                    self.turn = Turn::Closed;
                }
                self.given.note(&buf[..n]);
                Ok(n)
            }
            Err(_) => {
                self.failures = Tally::after(&self.failures);
                if let Turn::Open(_) = &self.turn {
                    self.turn = Turn::Failed;
                }
                Err(DeviceFault)
            }
        }
    }
}

impl<R: Files> LateSource for LateFile<'_, R> {
    ghost use Rattle.byte_io.specs.Turn.{is_shut, is_open};

    ghost shut = { λ s. is_shut s.turn };

    ghost held = { λ s. is_open s.turn };

    fn is_shut(&self) -> bool {
        match &self.turn {
            Turn::Shut => true,
            Turn::Waits => false,
            Turn::Open(_) => false,
            Turn::Closed => false,
            Turn::Failed => false,
        }
    }

    fn close(&mut self) {
        if let Turn::Open(_) = &self.turn {
            self.turn = Turn::Closed;
        }
    }
}
