//! The files of the system. Each call is noted as it was answered.

ghost use Rattle.std.specs.Prelude.{◌≡◌, [], None, IfOk};
ghost use Rattle.byte_system.specs.System.{Took};
ghost use Rattle.byte_system.specs.Noted.{call_said};

use crate::host_files::{is_synced, write_opened};
use crate::own::Own;
use crate::system::{Failed, FileReadFault, FolderSyncFault, Mode, NewFileFault, System, There};
use crate::trail::{Note, Said, Trail};
use std::alloc::{AllocError, Global};
use std::fs::{File, Metadata, OpenFile};

/// How many files can be open at first. A place opens the old file, one that a stopped process left, and the new one.
const ROOM: usize = 4;

/// A new file beside a lock file, and its path. One that a stopped process left is not open, nor is one of a full disk, which was not made.
#[derive(Drop)]
pub(crate) struct NewFile {
    pub(crate) path: String,
    pub(crate) file: Option<File>,
}

/// How a file came to be open.
#[derive(Clone, Copy, Debug, PartialEq, Eq)]
pub(crate) enum Origin {
    /// This process made it.
    Made,
    Opened,
    /// It is the lock file of a process that has ended.
    Left,
    /// And it may not be removed, so this process uses it as its own.
    Kept,
}

/// An open file, and the new file beside it, if it is a lock file. A lock file that is kept gets another number.
#[derive(Drop)]
pub(crate) struct Opened {
    pub(crate) file: Option<File>,
    pub(crate) origin: Origin,
    pub(crate) new: Option<NewFile>,
}

impl Opened {
    /// The file that has the bytes: the new one beside a lock file, if there is one.
    pub(crate) fn content(&self) -> Option<&File> {
        match &self.new {
            Some(new) => new.file.as_ref(),
            None => self.file.as_ref(),
        }
    }

    pub(crate) fn content_mut(&mut self) -> Option<&mut File> {
        match &mut self.new {
            Some(new) => new.file.as_mut(),
            None => self.file.as_mut(),
        }
    }

    /// The device and the inode of the file.
    pub(crate) fn metadata(&self) -> Option<Metadata> {
        self.file.as_ref()?.metadata().ok()
    }
}

/// The files of the system, as this process sees them. An open file has the number of its place among those that the process has
/// opened; a file that is opened again keeps its number.
#[derive(Drop)]
pub struct HostSystem<'a> {
    pub(crate) rt: &'a HostRuntime,
    pub(crate) open: Vec<Opened>,
    pub(crate) trail: Trail,
    /// Whether a lock file that stays empty is one that a stopped process left.
    pub(crate) takes_empty: bool,
    pub(crate) own: Own,
}

impl<'a> HostSystem<'a> {
    /// The files of the system; none is open yet. A few can be opened without more memory.
    pub fn new(alloc: Global, rt: &'a HostRuntime) -> Result<HostSystem<'a>, AllocError>
        ensures { IfOk result (λ s. ⟦<HostSystem<'a> as System>⟧.state s ≡ record { me = 0; first = None; trace = [] }) }
    {
        let open = match Vec::with_capacity(alloc, ROOM) {
            Ok(open) => open,
            Err(_) => return Err(AllocError),
        };
        let own = match Own::new(alloc, rt) {
            Ok(own) => own,
            Err(_) => return Err(AllocError),
        };
        Ok(HostSystem {
            rt,
            open,
            trail: Trail::new(),
            takes_empty: false,
            own,
        })
    }

    /// The same for the last attempt of a process that has waited.
    pub fn after_waiting(alloc: Global, rt: &'a HostRuntime) -> Result<HostSystem<'a>, AllocError>
        ensures { IfOk result (λ s. ⟦<HostSystem<'a> as System>⟧.state s ≡ record { me = 0; first = None; trace = [] }) }
    {
        let mut system = match HostSystem::new(alloc, rt) {
            Ok(system) => system,
            Err(_) => return Err(AllocError),
        };
        system.takes_empty = true;
        Ok(system)
    }

    // Notes a call of this process.
    fn note(&mut self, call: Said<'_>)
        ensures { Took (call_said call.entry) (⟦<HostSystem<'a> as System>⟧.state self.old) (⟦<HostSystem<'a> as System>⟧.state self.new) }
    {
        self.trail = self.trail.then(&Note { by: 0, call });
    }
}

impl System for HostSystem<'_> {
    ghost state = { λ s. record { me = 0; first = None; trace = s.trail.events } };

    fn look(&mut self, path: &[u8]) -> Result<There, Failed> {
        match self.found_at(path) {
            Some(There::Nothing) => {
                self.note(Said::Finds(path, false));
                Ok(There::Nothing)
            }
            Some(There::Sole) => {
                self.note(Said::Finds(path, true));
                Ok(There::Sole)
            }
            Some(There::Shared) => {
                self.note(Said::Finds(path, true));
                Ok(There::Shared)
            }
            Some(There::Other) => {
                self.note(Said::Finds(path, true));
                Ok(There::Other)
            }
            None => {
                self.note(Said::Fails);
                Err(Failed)
            }
        }
    }

    fn make(&mut self, path: &[u8], mode: Mode) -> Result<usize, NewFileFault> {
        match self.make_at(path, mode) {
            Ok(file) => {
                self.note(Said::Makes(path, Some(file)));
                Ok(file)
            }
            Err(NewFileFault::Exists) => {
                self.note(Said::Makes(path, None));
                Err(NewFileFault::Exists)
            }
            Err(NewFileFault::NotMade) => {
                self.note(Said::Fails);
                Err(NewFileFault::NotMade)
            }
        }
    }

    fn make_own(&mut self, path: &[u8], mode: Mode) -> Result<usize, NewFileFault> {
        match self.make_pair(path, mode) {
            Ok(file) => {
                self.note(Said::Makes(path, Some(file)));
                Ok(file)
            }
            Err(NewFileFault::Exists) => {
                self.note(Said::Makes(path, None));
                Err(NewFileFault::Exists)
            }
            Err(NewFileFault::NotMade) => {
                self.note(Said::Fails);
                Err(NewFileFault::NotMade)
            }
        }
    }

    fn make_alike(&mut self, file: usize, path: &[u8]) -> Result<(), Failed> {
        let Some(_) = self.likens(file, path) else {
            self.note(Said::Fails);
            return Err(Failed);
        };
        self.note(Said::Likens(file, path));
        Ok(())
    }

    fn open(&mut self, path: &[u8]) -> Result<usize, Failed> {
        let Some(file) = self.open_at(path) else {
            self.note(Said::Fails);
            return Err(Failed);
        };
        self.note(Said::Opens(path, file));
        Ok(file)
    }

    fn open_left(&mut self, path: &[u8]) -> Result<usize, Failed> {
        let Some(file) = self.open_pair(path) else {
            self.note(Said::Fails);
            return Err(Failed);
        };
        self.note(Said::Opens(path, file));
        Ok(file)
    }

    fn lock(&mut self, file: usize) -> Result<bool, Failed> {
        let Some(is_locked) = self.is_locked(file) else {
            self.note(Said::Fails);
            return Err(Failed);
        };
        self.note(Said::Locks(file, is_locked));
        Ok(is_locked)
    }

    fn is_named(&mut self, path: &[u8], file: usize) -> Result<bool, Failed> {
        let Some(is_named) = self.is_at(path, file) else {
            self.note(Said::Fails);
            return Err(Failed);
        };
        self.note(Said::Looks(path, file, is_named));
        Ok(is_named)
    }

    fn write(&mut self, file: usize, bytes: &[u8]) -> usize {
        let written = match self.open.get_mut(file) {
            Some(opened) => write_opened(opened, bytes),
            None => 0,
        };
        self.note(Said::Writes(file, &bytes[..written]));
        written
    }

    fn sync(&mut self, file: usize) -> Result<(), Failed> {
        let is_synced = match self.open.get(file) {
            Some(opened) => is_synced(opened),
            None => false,
        };
        if !is_synced {
            self.note(Said::Fails);
            return Err(Failed);
        }
        self.note(Said::Syncs(file));
        Ok(())
    }

    fn has(&mut self, path: &[u8], bytes: &[u8]) -> Result<bool, FileReadFault> {
        match self.has_at(path, bytes) {
            Ok(has) => {
                self.note(Said::Compares(path, bytes, has));
                Ok(has)
            }
            Err(fault) => {
                self.note(Said::Fails);
                Err(fault)
            }
        }
    }

    fn rename(&mut self, from: &[u8], to: &[u8]) -> Result<(), Failed> {
        if let Err(fault) = self.renames(from, to) {
            self.note(Said::Fails);
            return Err(fault);
        }
        self.note(Said::Renames(from, to));
        Ok(())
    }

    fn unlink(&mut self, path: &[u8]) -> Result<(), Failed> {
        if !self.removes(path) {
            self.note(Said::Fails);
            return Err(Failed);
        }
        self.note(Said::Unlinks(path));
        Ok(())
    }

    fn sync_folder(&mut self, path: &[u8]) -> Result<(), FolderSyncFault> {
        if let Err(fault) = self.syncs_folder(path) {
            self.note(Said::Fails);
            return Err(fault);
        }
        self.note(Said::SyncsFolder(path));
        Ok(())
    }
}
