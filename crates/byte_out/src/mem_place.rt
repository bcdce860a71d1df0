//! A place in memory, for tests. Its files are known, and it can be set to fail.

ghost use Rattle.std.specs.Prelude.{◌≡◌, ◌↔◌, None, Some, true, false, option_map, IsTrue};
ghost use Rattle.byte_io.specs.Device.{target_of};

use crate::chunks::Chunks;
use crate::fault::{CompareFault, MakeFault, PutFault};
use crate::place::Place;
use byte_io::{DeviceFault, Log, Tally, WriteFault};
use std::alloc::Global;

/// A step of a place in memory.
#[derive(Clone, Copy, Debug, PartialEq, Eq)]
pub enum PlaceStep {
    Make,
    Sync,
    /// Opening the file with the name again, to compare it.
    Reopen,
    /// Reading it again.
    Reread,
    Put,
    Land,
    Remove,
}

/// A place in memory, with room for a new file of some length. A step can be set to fail.
#[derive(Drop)]
pub struct MemPlace {
    alloc: Global,
    stands: Option<Vec<u8>>,
    beside: Option<Vec<u8>>,
    room: usize,
    fails: Option<PlaceStep>,
    sure: bool,
    same: bool,
    torn: bool,
    landed: bool,
    taken: Log,
    failures: Tally,
    stalls: Tally,
    openings: Tally,
    stuck: Tally,
}

impl MemPlace {
    /// A place with this file, or none, and with a new file that another writer left, or none.
    pub fn new(
        alloc: Global,
        stands: Option<Vec<u8>>,
        beside: Option<Vec<u8>>,
        room: usize,
    ) -> MemPlace
        ensures files { (⟦<MemPlace as Place>⟧.state result).files ≡ Some (record {
          stands = option_map (λ v. v.items) stands;
          beside = option_map (λ v. v.items) beside;
          sure = false;
          same = false;
          torn = false;
          landed = true;
          stuck = 0;
        }) }
        ensures calls { (⟦<MemPlace as Place>⟧.state result).sink ≡ target_of None }
        ensures room { (result.room ≡ room) × (result.fails ≡ None) }
    {
        MemPlace {
            alloc,
            stands,
            beside,
            room,
            fails: None,
            sure: false,
            same: false,
            torn: false,
            landed: true,
            taken: Log::empty(),
            failures: Tally::none(),
            stalls: Tally::none(),
            openings: Tally::none(),
            stuck: Tally::none(),
        }
    }

    /// Makes this step fail.
    pub fn fail_at(&mut self, step: PlaceStep)
        ensures set { self.new.fails ≡ Some step }
        ensures room { self.new.room ≡ self.old.room }
        ensures rest { ⟦<MemPlace as Place>⟧.state self.new ≡ ⟦<MemPlace as Place>⟧.state self.old }
    {
        self.fails = Some(step);
    }

    /// The file with the name.
    pub fn stands(&self) -> Option<&[u8]>
        ensures { option_map (λ s. s.now) result ≡ option_map (λ v. v.items) self.now.stands }
    {
        match &self.stands {
            Some(file) => Some(file),
            None => None,
        }
    }

    /// The new file.
    pub fn beside(&self) -> Option<&[u8]>
        ensures { option_map (λ s. s.now) result ≡ option_map (λ v. v.items) self.now.beside }
    {
        match &self.beside {
            Some(file) => Some(file),
            None => None,
        }
    }

    /// Whether the file with the name survives a stop.
    pub fn has_landed(&self) -> bool
        ensures { result ≡ self.now.landed }
    {
        self.landed
    }

    /// Whether a stop so far might have left part of a new file under the name.
    pub fn is_torn(&self) -> bool
        ensures { result ≡ self.now.torn }
    {
        self.torn
    }
}

// Whether there is a file, and it has these bytes.
fn is_file(file: &Option<Vec<u8>>, bytes: &[u8]) -> bool
    ensures { IsTrue result ↔ (option_map (λ v. v.items) file.now ≡ Some bytes.now) }
{
    match file {
        None => false,
        Some(held) => held.as_slice() == bytes,
    }
}

impl Place for MemPlace {
    ghost state = { λ s. record {
      sink = record {
        written = None;
        taken = s.taken.bytes;
        failures = s.failures.count;
        stalls = s.stalls.count;
        openings = s.openings.count;
      };
      files = Some (record {
        stands = option_map (λ v. v.items) s.stands;
        beside = option_map (λ v. v.items) s.beside;
        sure = s.sure;
        same = s.same;
        torn = s.torn;
        landed = s.landed;
        stuck = s.stuck.count;
      });
    } };

    fn make(&mut self) -> Result<(), MakeFault> {
        if self.beside.is_some() {
            self.failures = Tally::after(&self.failures);
            return Err(MakeFault::Exists);
        }
        if self.fails == Some(PlaceStep::Make) {
            self.failures = Tally::after(&self.failures);
            return Err(MakeFault::NotOpened);
        }
        self.openings = Tally::after(&self.openings);
        self.beside = Some(Vec::new(self.alloc));
        self.sure = false;
        self.same = false;
        Ok(())
    }

    fn write(&mut self, bytes: &[u8]) -> Result<(), WriteFault> {
        if bytes.is_empty() {
            return Ok(());
        }
        let count = self.room.min(bytes.len());
        let Some(held) = &mut self.beside else {
            self.stalls = Tally::after(&self.stalls);
            return Err(WriteFault { written: 0 });
        };
        self.sure = false;
        if held.extend_from_slice(&bytes[..count]).is_err() {
            self.failures = Tally::after(&self.failures);
            return Err(WriteFault { written: 0 });
        }
        self.taken.note(&bytes[..count]);
        if count < bytes.len() {
            self.failures = Tally::after(&self.failures);
            return Err(WriteFault { written: count });
        }
        Ok(())
    }

    fn sync(&mut self) -> Result<(), DeviceFault> {
        if self.fails == Some(PlaceStep::Sync) {
            self.failures = Tally::after(&self.failures);
            return Err(DeviceFault);
        }
        self.sure = true;
        Ok(())
    }

    fn compare(&mut self, read: &[u8]) -> Result<(), CompareFault> {
        self.same = false;
        if self.stands.is_none() {
            return Err(CompareFault::Changed);
        }
        if self.fails == Some(PlaceStep::Reopen) {
            self.failures = Tally::after(&self.failures);
            return Err(CompareFault::NotOpened);
        }
        if self.fails == Some(PlaceStep::Reread) {
            self.failures = Tally::after(&self.failures);
            return Err(CompareFault::ReadFailed(0));
        }
        if !is_file(&self.stands, read) {
            return Err(CompareFault::Changed);
        }
        self.same = true;
        Ok(())
    }

    fn put<C: Chunks>(&mut self, _read: Option<&[u8]>, _content: &mut C) -> Result<(), PutFault> {
        // If it is cut short, it may be done or not.
        if !self.sure {
            self.torn = true;
        }
        if self.fails == Some(PlaceStep::Put) {
            self.failures = Tally::after(&self.failures);
            return Err(PutFault::NotOpened);
        }
        self.stands = self.beside.take();
        self.landed = false;
        Ok(())
    }

    fn land(&mut self) -> Result<(), DeviceFault> {
        if self.fails == Some(PlaceStep::Land) {
            self.failures = Tally::after(&self.failures);
            return Err(DeviceFault);
        }
        self.landed = true;
        Ok(())
    }

    fn remove(&mut self) {
        if self.fails == Some(PlaceStep::Remove) {
            self.stuck = Tally::after(&self.stuck);
            return;
        }
        self.beside = None;
    }
}
