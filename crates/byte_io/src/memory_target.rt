//! A target in memory, for tests.

ghost use Rattle.std.specs.Prelude.{◌≡◌, ◌<◌, [], Some, IsTrue};
ghost use Rattle.byte_io.specs.Device.{target_of};

use crate::fault::{DeviceFault, NotOpened};
use crate::log::Log;
use crate::sink::Sink;
use crate::tally::Tally;
use crate::target::Target;
use std::alloc::Global;

/// A target in memory, which can be set not to open.
#[derive(Drop)]
pub struct MemoryTarget {
    held: Vec<u8>,
    opens: bool,
    is_open: bool,
    taken: Log,
    failures: Tally,
    stalls: Tally,
    openings: Tally,
    ghost counted: { IsTrue is_open → 0 < openings.count },
}

impl MemoryTarget {
    /// An empty target, which opens if `opens`.
    pub fn new(alloc: Global, opens: bool) -> MemoryTarget
        ensures empty { ⟦<MemoryTarget as Sink>⟧.state result ≡ target_of (Some []) }
        ensures opens { result.opens ≡ opens }
    {
        MemoryTarget {
            held: Vec::new(alloc),
            opens,
            is_open: false,
            taken: Log::empty(),
            failures: Tally::none(),
            stalls: Tally::none(),
            openings: Tally::none(),
        }
    }

    /// The bytes written so far.
    pub fn taken(&self) -> &[u8]
        ensures { Some result.now ≡ (⟦<MemoryTarget as Sink>⟧.state self.now).written }
    {
        &self.held
    }
}

impl Sink for MemoryTarget {
    ghost state = { λ s. record {
      written = Some s.held.items;
      taken = s.taken.bytes;
      failures = s.failures.count;
      stalls = s.stalls.count;
      openings = s.openings.count;
    } };

    fn write_some(&mut self, buf: &[u8]) -> Result<usize, DeviceFault> {
        if !self.is_open {
            if !buf.is_empty() {
                self.stalls = Tally::after(&self.stalls);
            }
            return Ok(0);
        }
        if self.held.extend_from_slice(buf).is_err() {
            self.failures = Tally::after(&self.failures);
            return Err(DeviceFault);
        }
        self.taken.note(buf);
        Ok(buf.len())
    }
}

impl Target for MemoryTarget {
    fn open(&mut self) -> Result<(), NotOpened> {
        if !self.opens {
            self.failures = Tally::after(&self.failures);
            return Err(NotOpened);
        }
        self.openings = Tally::after(&self.openings);
        self.is_open = true;
        Ok(())
    }
}
