//! A file of the system that a device over paths writes, and what its calls moved.

ghost use Rattle.std.specs.Prelude.{◌≡◌, ◌<◌, ◌≤◌, ◌+◌, [], None, Some, Ok, IsSome, IfOk, length};
ghost use Rattle.byte_io.specs.Device.{CountsFailure, CountsNone, Moves};

use crate::fault::DeviceFault;
use crate::log::Log;
use crate::sink::Sink;
use crate::tally::Tally;
use std::io::Write;

/// A file of the system, if one is open, with the bytes that it took and the counts of its calls. A device that opens a path holds
/// one. No contract says what the system does with the bytes.
#[derive(Drop)]
pub struct StdFile<F> {
    pub file: Option<F>,
    pub taken: Log,
    pub failures: Tally,
    pub stalls: Tally,
    pub openings: Tally,
    ghost counted: { IsSome file → 0 < openings.count },
}

impl<F: Write + Drop> StdFile<F> {
    /// No file has been opened.
    pub fn new() -> StdFile<F>
        ensures file { result.file ≡ None }
        ensures taken { result.taken.bytes ≡ [] }
        ensures failures { result.failures.count ≡ 0 }
        ensures stalls { result.stalls.count ≡ 0 }
        ensures openings { result.openings.count ≡ 0 }
    {
        StdFile {
            file: None,
            taken: Log::empty(),
            failures: Tally::none(),
            stalls: Tally::none(),
            openings: Tally::none(),
        }
    }

    /// Holds this file, which was opened.
    pub fn open(&mut self, file: F)
        ensures file { self.new.file ≡ Some file }
        ensures taken { self.new.taken.bytes ≡ self.old.taken.bytes }
        ensures failures { self.new.failures.count ≡ self.old.failures.count }
        ensures stalls { self.new.stalls.count ≡ self.old.stalls.count }
        ensures openings { self.new.openings.count ≡ self.old.openings.count + 1 }
    {
        self.openings = Tally::after(&self.openings);
        self.file = Some(file);
    }

    /// Counts a call that failed.
    pub fn fail(&mut self)
        ensures file { self.new.file ≡ self.old.file }
        ensures taken { self.new.taken.bytes ≡ self.old.taken.bytes }
        ensures failures { self.new.failures.count ≡ self.old.failures.count + 1 }
        ensures stalls { self.new.stalls.count ≡ self.old.stalls.count }
        ensures openings { self.new.openings.count ≡ self.old.openings.count }
    {
        self.failures = Tally::after(&self.failures);
    }

    /// Takes the bytes without a call, since the device writes them later. If no file is open, it takes none.
    pub fn pass(&mut self, buf: &[u8]) -> Result<usize, DeviceFault>
        ensures bound { IfOk result (λ n. n ≤ length buf.now) }
        ensures taken { Moves result buf.now self.old.taken.bytes self.new.taken.bytes }
        ensures failure { CountsFailure result self.old.failures.count self.new.failures.count }
        ensures stall { CountsNone result (length buf.now) self.old.stalls.count self.new.stalls.count }
        ensures openings { self.new.openings.count ≡ self.old.openings.count }
        ensures closed { self.old.openings.count ≡ 0 → result ≡ Ok 0 }
    {
        let Some(_) = &self.file else {
            if !buf.is_empty() {
                self.stalls = Tally::after(&self.stalls);
            }
            return Ok(0);
        };
        self.taken.note(buf);
        Ok(buf.len())
    }
}

impl<F: Write> Sink for StdFile<F> {
    ghost state = { λ s. record {
      written = None;
      taken = s.taken.bytes;
      failures = s.failures.count;
      stalls = s.stalls.count;
      openings = s.openings.count;
    } };

    fn write_some(&mut self, buf: &[u8]) -> Result<usize, DeviceFault> {
        let written = match &mut self.file {
            None => Ok(0),
            Some(file) => file.write(buf),
        };
        match written {
            Ok(n) => {
                if n == 0 && !buf.is_empty() {
                    self.stalls = Tally::after(&self.stalls);
                }
                self.taken.note(&buf[..n]);
                Ok(n)
            }
            Err(_) => {
                self.failures = Tally::after(&self.failures);
                Err(DeviceFault)
            }
        }
    }
}
