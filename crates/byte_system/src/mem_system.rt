//! A system in memory, for tests. Between its calls other processes act as a test plans it, and calls fail as it plans it.

ghost use Rattle.std.specs.Prelude.{◌≡◌, [], Some};
ghost use Rattle.byte_system.specs.Disk.{no_files};
ghost use Rattle.byte_system.specs.Quiet.{IsOne, IsQuiet};

use crate::files::Files;
use crate::system::{Failed, FileReadFault, FolderSyncFault, Mode, NewFileFault, System, There};
use std::alloc::Global;

/// What another process does. A file's number is how many files were made before it.
#[derive(Drop)]
pub enum Does {
    Make(Vec<u8>),
    Lock(usize),
    Write(usize, Vec<u8>),
    Rename(Vec<u8>, Vec<u8>),
    Unlink(Vec<u8>),
    End,
}

/// What another process does before the call with this number. The first call has the number 0.
#[derive(Drop)]
pub struct Act {
    pub before: usize,
    pub by: usize,
    pub does: Does,
}

/// A system in memory.
#[derive(Drop)]
pub struct MemSystem {
    me: usize,
    files: Files,
    acts: Vec<Act>,
    fails: Vec<usize>,
    now: usize,
}

impl MemSystem {
    /// No files, as this process sees them. The acts happen in their order, and the calls with the numbers fail.
    pub fn new(alloc: Global, me: usize, acts: Vec<Act>, fails: Vec<usize>) -> MemSystem
        ensures { ⟦<MemSystem as System>⟧.state result ≡ record { me = me; first = Some no_files; trace = [] } }
    {
        MemSystem {
            me,
            files: Files::new(alloc),
            acts,
            fails,
            now: 0,
        }
    }

    /// The bytes of the file with a name.
    pub fn read(&self, path: &[u8]) -> Option<&[u8]> {
        self.files.read(path)
    }

    // Lets the other processes act. Returns whether the next call works.
    fn works(&mut self) -> bool
        ensures { (self.new.me ≡ self.old.me) × IsQuiet self.old.me self.old.files.trail.events self.new.files.trail.events }
    {
        let now = self.now;
        self.now = now.saturating_add(1);
        others_act(&mut self.files, &self.acts, self.me, now);
        !self.fails.contains(&now)
    }
}

fn do_act(files: &mut Files, by: usize, does: &Does)
    ensures { IsOne by files.old.trail.events files.new.trail.events }
{
    match does {
        Does::Make(path) => {
            let _ = files.make(by, path, true);
        }
        Does::Lock(file) => {
            let _ = files.lock(by, *file, true);
        }
        Does::Write(file, bytes) => {
            let _ = files.write(by, *file, bytes, true);
        }
        Does::Rename(from, to) => {
            let _ = files.rename(by, from, to, true);
        }
        Does::Unlink(path) => {
            let _ = files.unlink(by, path, true);
        }
        Does::End => {
            let _ = files.end(by);
        }
    }
}

fn act_at(files: &mut Files, act: &Act, me: usize, now: usize)
    ensures { IsQuiet me files.old.trail.events files.new.trail.events }
{
    if act.before != now {
        return;
    }
    if act.by == me {
        return;
    }
    do_act(files, act.by, &act.does);
}

fn others_act(files: &mut Files, acts: &[Act], me: usize, now: usize)
    ensures { IsQuiet me files.old.trail.events files.new.trail.events }
{
    let mut rest = acts;
    while let Some((act, others)) = rest.split_first() {
        act_at(files, act, me, now);
        rest = others;
    }
}

impl System for MemSystem {
    ghost state = { λ s. record { me = s.me; first = Some no_files; trace = s.files.trail.events } };

    fn look(&mut self, path: &[u8]) -> Result<There, Failed> {
        let works = self.works();
        self.files.look(self.me, path, works)
    }

    fn make(&mut self, path: &[u8], _mode: Mode) -> Result<usize, NewFileFault> {
        let works = self.works();
        self.files.make(self.me, path, works)
    }

    fn make_own(&mut self, path: &[u8], _mode: Mode) -> Result<usize, NewFileFault> {
        let works = self.works();
        self.files.make(self.me, path, works)
    }

    fn make_alike(&mut self, file: usize, path: &[u8]) -> Result<(), Failed> {
        let works = self.works();
        self.files.make_alike(self.me, file, path, works)
    }

    fn open(&mut self, path: &[u8]) -> Result<usize, Failed> {
        let works = self.works();
        self.files.open(self.me, path, works)
    }

    fn open_left(&mut self, path: &[u8]) -> Result<usize, Failed> {
        let works = self.works();
        self.files.open(self.me, path, works)
    }

    fn lock(&mut self, file: usize) -> Result<bool, Failed> {
        let works = self.works();
        self.files.lock(self.me, file, works)
    }

    fn is_named(&mut self, path: &[u8], file: usize) -> Result<bool, Failed> {
        let works = self.works();
        self.files.is_named(self.me, path, file, works)
    }

    fn write(&mut self, file: usize, bytes: &[u8]) -> usize {
        let works = self.works();
        self.files.write(self.me, file, bytes, works)
    }

    fn sync(&mut self, file: usize) -> Result<(), Failed> {
        let works = self.works();
        self.files.sync(self.me, file, works)
    }

    fn has(&mut self, path: &[u8], bytes: &[u8]) -> Result<bool, FileReadFault> {
        let works = self.works();
        self.files.has(self.me, path, bytes, works)
    }

    fn rename(&mut self, from: &[u8], to: &[u8]) -> Result<(), Failed> {
        let works = self.works();
        self.files.rename(self.me, from, to, works & (from != to))
    }

    fn unlink(&mut self, path: &[u8]) -> Result<(), Failed> {
        let works = self.works();
        self.files.unlink(self.me, path, works)
    }

    fn sync_folder(&mut self, path: &[u8]) -> Result<(), FolderSyncFault> {
        let works = self.works();
        self.files.sync_folder(self.me, path, works)
    }
}
