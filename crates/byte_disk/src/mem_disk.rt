//! A disk in memory, for tests. It can be set to fail and to stop, and returns the bytes that a stop leaves.

ghost use Rattle.std.specs.Prelude.{◌≡◌, ◌⊎◌, List, ℕ, true, IsTrue, IfOk};
ghost use Rattle.std.proofs.Common.{inl, sym, subst};
ghost use Rattle.byte_disk.specs.Record.{IsWhole, SpanLeaves, WasLeft, are_before};
ghost use Rattle.byte_disk.specs.RecordLaws.{reaches_applied, only_present};

use crate::disk::{Disk, DiskFault};
use crate::new_disk::NewDisk;
use crate::pending::Pending;
use crate::record::{begin, copy_out, cut_short, record_write};
use crate::script::{Fate, Script};
use crate::span::{Past, SinceSync};
use byte_io::{NotOpened, Tally};
use std::alloc::{AllocError, Global};
use std::mem;

/// A disk in memory. All members of its model are known.
#[derive(Drop)]
pub struct MemDisk {
    alloc: Global,
    bytes: Vec<u8>,
    span: SinceSync,
    past: Vec<Past>,
    clock: Tally,
    failures: Tally,
    openings: Tally,
    opens: bool,
    script: Script,
    ghost whole: { IsWhole bytes.items span },
    ghost ordered: { IsTrue (are_before past.items clock.count) },
}

impl Disk for MemDisk {
    ghost tells = { λ _. true };

    ghost seen = { λ d. d.bytes.items };

    ghost images = { λ d c. SpanLeaves d.span c };

    ghost moment = { λ d. d.clock.count };

    ghost images_since = { λ d t c. SpanLeaves d.span c ⊎ WasLeft d.past.items t c };

    ghost failures = { λ d. d.failures.count };

    ghost seen_is_image = { λ d told. subst (λ (c : List ℕ). SpanLeaves d.span c) (sym d.whole)
        (reaches_applied d.span.base.items d.span.writes.items) };

    ghost counts_now = { λ d t c told le now. inl now };

    ghost only_now = { λ d c told left. only_present d.span d.past.items d.clock.count c d.ordered left };

    fn read_at(&mut self, at: u64, buf: &mut [u8]) -> Result<usize, DiskFault> {
        self.clock = Tally::after(&self.clock);
        if self.script.next() != Fate::Works {
            self.failures = Tally::after(&self.failures);
            return Err(DiskFault);
        }
        Ok(copy_out(&self.bytes, at, buf))
    }

    fn write_at(&mut self, at: u64, bytes: &[u8]) -> Result<(), DiskFault> {
        self.clock = Tally::after(&self.clock);
        let fate = self.script.next();
        let written = record_write(self.alloc, &mut self.bytes, &mut self.span, at, bytes, fate);
        if written.is_err() {
            self.failures = Tally::after(&self.failures);
            return Err(DiskFault);
        }
        Ok(())
    }

    fn sync(&mut self) -> Result<(), DiskFault> {
        let now = Tally::after(&self.clock);
        let before = mem::replace(&mut self.clock, now);
        if self.script.next() != Fate::Works {
            self.failures = Tally::after(&self.failures);
            return Err(DiskFault);
        }
        let begun = begin(
            self.alloc,
            &mut self.span,
            &mut self.past,
            &self.bytes,
            before,
        );
        if begun.is_err() {
            self.failures = Tally::after(&self.failures);
            return Err(DiskFault);
        }
        Ok(())
    }
}

impl MemDisk {
    ghost use Rattle.std.specs.Prelude.{Some, false};
    ghost use Rattle.byte_disk.specs.Disk.{Only};
    ghost use Rattle.byte_disk.specs.MemDisk.{IsSameDisk};
    ghost use Rattle.byte_disk.specs.Pending.{left_by};

    /// A disk with these bytes, all of them synced.
    pub fn new(alloc: Global, bytes: Vec<u8>) -> Result<MemDisk, AllocError>
        ensures tells { IfOk result (λ d. IsTrue (⟦<MemDisk as Disk>⟧.tells d)) }
        ensures seen { IfOk result (λ d. ⟦<MemDisk as Disk>⟧.seen d ≡ bytes.items) }
        ensures sure { IfOk result (λ d. Only bytes.items (⟦<MemDisk as Disk>⟧.images d)) }
        ensures failures { IfOk result (λ d. ⟦<MemDisk as Disk>⟧.failures d ≡ 0) }
    {
        let base = bytes.to_vec(alloc)?;
        Ok(MemDisk {
            alloc,
            bytes,
            span: SinceSync {
                base,
                writes: Vec::new(alloc),
            },
            past: Vec::new(alloc),
            clock: Tally::none(),
            failures: Tally::none(),
            openings: Tally::none(),
            opens: true,
            script: Script::new(),
        })
    }

    /// The bytes that a read returns.
    pub fn bytes(&self) -> &[u8]
        ensures { result.now ≡ ⟦<MemDisk as Disk>⟧.seen self.now }
    {
        &self.bytes
    }

    /// Makes the call with this number fail, and each later one. The first has the number 0. A write that the stop
    /// cuts short may be partly done; later writes change nothing.
    pub fn stop_from(&mut self, call: u64)
        ensures set { self.new.script.stop ≡ Some call }
        ensures rest { IsSameDisk self.old self.new }
    {
        self.script.stop = Some(call);
    }

    /// Makes the call with this number fail. A write that fails may be partly done.
    pub fn fail_at(&mut self, call: u64)
        ensures set { self.new.script.fail ≡ Some call }
        ensures rest { IsSameDisk self.old self.new }
    {
        self.script.fail = Some(call);
    }

    /// Makes opening fail.
    pub fn refuse_to_open(&mut self)
        ensures set { self.new.opens ≡ false }
        ensures rest { IsSameDisk self.old self.new }
    {
        self.opens = false;
    }

    /// The bytes that a stop at this moment leaves, with the unsynced bytes as given.
    pub fn left(&self, pending: Pending) -> Result<Vec<u8>, AllocError>
        ensures image { IfOk result (λ v. ⟦<MemDisk as Disk>⟧.images self.now v.items) }
        ensures value { IfOk result (λ v. v.items ≡ left_by pending
            self.now.span.base.items self.now.span.writes.items) }
    {
        let mut content = self.span.base.to_vec(self.alloc)?;
        for write in &self.span.writes {
            content = cut_short(self.alloc, content, write, pending)?;
        }
        Ok(content)
    }

    /// The number of calls so far.
    pub fn calls(&self) -> u64
        ensures { result ≡ self.now.script.calls }
    {
        self.script.calls
    }
}

impl NewDisk for MemDisk {
    ghost openings = { λ d. d.openings.count };

    fn open(&mut self) -> Result<(), NotOpened> {
        let now = Tally::after(&self.clock);
        let before = mem::replace(&mut self.clock, now);
        if !self.opens {
            self.failures = Tally::after(&self.failures);
            return Err(NotOpened);
        }
        let begun = begin(self.alloc, &mut self.span, &mut self.past, &[], before);
        if begun.is_err() {
            self.failures = Tally::after(&self.failures);
            return Err(NotOpened);
        }
        self.bytes.clear();
        self.openings = Tally::after(&self.openings);
        Ok(())
    }
}
