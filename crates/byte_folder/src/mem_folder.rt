//! A place of a folder in memory, for tests. Its folders are known, and it can be set to fail.

ghost use Rattle.std.specs.Prelude.{◌≡◌, None, Some, map, option_map, IfOk, IsTrue};
ghost use Rattle.byte_io.specs.Device.{target_of};
ghost use Rattle.byte_folder.specs.Folder.{seen, IsFree};

use crate::fault::MakeFolderFault;
use crate::file::NamedFile;
use crate::place::FolderPlace;
use byte_io::{Log, NotOpened, PublishFault, Tally};
use std::alloc::{AllocError, Global};

/// A step of a place in memory.
#[derive(Clone, Copy, Debug, PartialEq, Eq)]
pub enum FolderStep {
    Make,
    Add,
    Put,
    Remove,
}

/// A place of a folder in memory, with room for some bytes in each file. A step can be set to fail.
#[derive(Drop)]
pub struct MemFolder {
    alloc: Global,
    stands: Option<Vec<NamedFile>>,
    beside: Option<Vec<NamedFile>>,
    room: usize,
    fails: Option<FolderStep>,
    taken: Log,
    failures: Tally,
    stalls: Tally,
    openings: Tally,
    stuck: Tally,
}

impl MemFolder {
    /// A place with this folder, or none, and with a new folder that another writer left, or none.
    pub fn new(
        alloc: Global,
        stands: Option<Vec<NamedFile>>,
        beside: Option<Vec<NamedFile>>,
        room: usize,
    ) -> MemFolder
        ensures folders { (⟦<MemFolder as FolderPlace>⟧.state result).folders ≡ Some (record {
          stands = option_map (λ v. map seen v.items) stands;
          beside = option_map (λ v. map seen v.items) beside;
          stuck = 0;
        }) }
        ensures calls { (⟦<MemFolder as FolderPlace>⟧.state result).sink ≡ target_of None }
        ensures room { (result.room ≡ room) × (result.fails ≡ None) }
    {
        MemFolder {
            alloc,
            stands,
            beside,
            room,
            fails: None,
            taken: Log::empty(),
            failures: Tally::none(),
            stalls: Tally::none(),
            openings: Tally::none(),
            stuck: Tally::none(),
        }
    }

    /// Makes this step fail.
    pub fn fail_at(&mut self, step: FolderStep)
        ensures set { self.new.fails ≡ Some step }
        ensures room { self.new.room ≡ self.old.room }
        ensures rest { ⟦<MemFolder as FolderPlace>⟧.state self.new ≡ ⟦<MemFolder as FolderPlace>⟧.state self.old }
    {
        self.fails = Some(step);
    }

    /// The files of the folder with the name.
    pub fn stands(&self) -> Option<&[NamedFile]>
        ensures { option_map (λ s. s.now) result ≡ option_map (λ v. v.items) self.now.stands }
    {
        match &self.stands {
            Some(files) => Some(files),
            None => None,
        }
    }

    /// The files of the new folder.
    pub fn beside(&self) -> Option<&[NamedFile]>
        ensures { option_map (λ s. s.now) result ≡ option_map (λ v. v.items) self.now.beside }
    {
        match &self.beside {
            Some(files) => Some(files),
            None => None,
        }
    }
}

// The file with these bytes.
fn file_of(alloc: Global, name: &[u8], bytes: &[u8]) -> Result<NamedFile, AllocError>
    ensures { IfOk result (λ file. seen file ≡ record { name = name.now; bytes = bytes.now }) }
{
    let mut named = Vec::new(alloc);
    named.extend_from_slice(name)?;
    let mut held = Vec::new(alloc);
    held.extend_from_slice(bytes)?;
    Ok(NamedFile {
        name: named,
        bytes: held,
    })
}

// Whether there is no folder, or an empty one.
fn is_free(folder: &Option<Vec<NamedFile>>) -> bool
    ensures { IsTrue result → IsFree (option_map (λ v. map seen v.items) folder.now) }
{
    match folder {
        None => true,
        Some(files) => files.is_empty(),
    }
}

impl FolderPlace for MemFolder {
    ghost state = { λ s. record {
      sink = record {
        written = None;
        taken = s.taken.bytes;
        failures = s.failures.count;
        stalls = s.stalls.count;
        openings = s.openings.count;
      };
      folders = Some (record {
        stands = option_map (λ v. map seen v.items) s.stands;
        beside = option_map (λ v. map seen v.items) s.beside;
        stuck = s.stuck.count;
      });
    } };

    fn make(&mut self) -> Result<(), MakeFolderFault> {
        if self.beside.is_some() {
            self.failures = Tally::after(&self.failures);
            return Err(MakeFolderFault::Exists);
        }
        if self.fails == Some(FolderStep::Make) || !is_free(&self.stands) {
            self.failures = Tally::after(&self.failures);
            return Err(MakeFolderFault::NotOpened);
        }
        self.beside = Some(Vec::new(self.alloc));
        Ok(())
    }

    fn add(&mut self, name: &[u8], bytes: &[u8]) -> Result<(), PublishFault> {
        let Some(files) = &mut self.beside else {
            self.failures = Tally::after(&self.failures);
            return Err(PublishFault::NotOpened);
        };
        let Ok(file) = file_of(self.alloc, name, bytes) else {
            self.failures = Tally::after(&self.failures);
            return Err(PublishFault::NotOpened);
        };
        if self.fails == Some(FolderStep::Add) || files.push(file).is_err() {
            self.failures = Tally::after(&self.failures);
            return Err(PublishFault::NotOpened);
        }
        self.openings = Tally::after(&self.openings);
        let count = self.room.min(bytes.len());
        self.taken.note(&bytes[..count]);
        if count < bytes.len() {
            self.failures = Tally::after(&self.failures);
            return Err(PublishFault::WriteFailed(count));
        }
        Ok(())
    }

    fn put(&mut self) -> Result<(), NotOpened> {
        if self.fails == Some(FolderStep::Put) || !is_free(&self.stands) {
            self.failures = Tally::after(&self.failures);
            return Err(NotOpened);
        }
        self.stands = self.beside.take();
        Ok(())
    }

    fn remove(&mut self) {
        if self.fails == Some(FolderStep::Remove) {
            self.stuck = Tally::after(&self.stuck);
            return;
        }
        self.beside = None;
    }
}
