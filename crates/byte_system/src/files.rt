//! Files in memory, and the calls of any process on their names. A call fails if a test lets it fail, or if there is no room.

ghost use Rattle.std.specs.Prelude.{◌≡◌, ◌∷◌, []};
ghost use Rattle.byte_system.specs.Files.{Shows};

use crate::entries::{Held, Lock, Name, bytes_of, file_named, move_name, set_name};
use crate::system::{Failed, FileReadFault, FolderSyncFault, NewFileFault, There};
use crate::trail::{Note, Said, Trail};
use std::alloc::Global;

/// Names, files and locks, and the events that led to them.
#[derive(Drop)]
pub(crate) struct Files {
    pub(crate) alloc: Global,
    pub(crate) names: Vec<Name>,
    pub(crate) held: Vec<Held>,
    pub(crate) locks: Vec<Lock>,
    pub(crate) count: usize,
    pub(crate) trail: Trail,
    ghost shows: { ∥ Shows names.items held.items locks.items count trail.events ∥₁ },
}

impl Files {
    ghost use Rattle.byte_system.specs.Disk.{Compares, Renames, Unlinks, SyncsFolder, Fails};
    ghost use Rattle.byte_system.specs.System.{make_call, open_call, look_call, done_or_failed, told_or_failed};

    /// No files.
    pub(crate) fn new(alloc: Global) -> Files
        ensures { result.trail.events ≡ [] }
    {
        Files {
            alloc,
            names: Vec::new(alloc),
            held: Vec::new(alloc),
            locks: Vec::new(alloc),
            count: 0,
            trail: Trail::new(),
        }
    }

    /// The bytes of the file with a name.
    pub(crate) fn read(&self, path: &[u8]) -> Option<&[u8]> {
        match file_named(&self.names, path) {
            None => None,
            Some(file) => Some(bytes_of(&self.held, file)),
        }
    }

    pub(crate) fn fail(&mut self, by: usize)
        ensures { self.new.trail.events ≡ record { by = by; call = Fails } ∷ self.old.trail.events }
    {
        self.trail = self.trail.then(&Note {
            by,
            call: Said::Fails,
        });
    }

    /// Each file has one name.
    pub(crate) fn look(&mut self, by: usize, path: &[u8], works: bool) -> Result<There, Failed>
        ensures { self.new.trail.events ≡ record { by = by; call = look_call path.now result } ∷ self.old.trail.events }
    {
        if !works {
            self.fail(by);
            return Err(Failed);
        }
        let Some(_) = file_named(&self.names, path) else {
            self.trail = self.trail.then(&Note {
                by,
                call: Said::Finds(path, false),
            });
            return Ok(There::Nothing);
        };
        self.trail = self.trail.then(&Note {
            by,
            call: Said::Finds(path, true),
        });
        Ok(There::Sole)
    }

    pub(crate) fn make(
        &mut self,
        by: usize,
        path: &[u8],
        works: bool,
    ) -> Result<usize, NewFileFault>
        ensures { self.new.trail.events ≡ record { by = by; call = make_call path.now result } ∷ self.old.trail.events }
    {
        if !works {
            self.fail(by);
            return Err(NewFileFault::NotMade);
        }
        if let Some(_) = file_named(&self.names, path) {
            self.trail = self.trail.then(&Note {
                by,
                call: Said::Makes(path, None),
            });
            return Err(NewFileFault::Exists);
        }
        let file = self.count;
        let Some(next) = file.checked_add(1) else {
            self.fail(by);
            return Err(NewFileFault::NotMade);
        };
        if let Err(_) = set_name(self.alloc, &mut self.names, path, Some(file)) {
            self.trail = self.trail.then(&Note {
                by,
                call: Said::Fails,
            });
            return Err(NewFileFault::NotMade);
        }
        self.count = next;
        self.trail = self.trail.then(&Note {
            by,
            call: Said::Makes(path, Some(file)),
        });
        Ok(file)
    }

    pub(crate) fn open(&mut self, by: usize, path: &[u8], works: bool) -> Result<usize, Failed>
        ensures { self.new.trail.events ≡ record { by = by; call = open_call path.now result } ∷ self.old.trail.events }
    {
        if !works {
            self.fail(by);
            return Err(Failed);
        }
        let Some(file) = file_named(&self.names, path) else {
            self.fail(by);
            return Err(Failed);
        };
        self.trail = self.trail.then(&Note {
            by,
            call: Said::Opens(path, file),
        });
        Ok(file)
    }

    pub(crate) fn has(
        &mut self,
        by: usize,
        path: &[u8],
        bytes: &[u8],
        works: bool,
    ) -> Result<bool, FileReadFault>
        ensures { self.new.trail.events ≡ record { by = by; call = told_or_failed (Compares path.now bytes.now) result } ∷ self.old.trail.events }
    {
        if !works {
            self.fail(by);
            return Err(FileReadFault::NotOpened);
        }
        let Some(file) = file_named(&self.names, path) else {
            self.trail = self.trail.then(&Note {
                by,
                call: Said::Compares(path, bytes, false),
            });
            return Ok(false);
        };
        if bytes_of(&self.held, file) == bytes {
            self.trail = self.trail.then(&Note {
                by,
                call: Said::Compares(path, bytes, true),
            });
            return Ok(true);
        }
        self.trail = self.trail.then(&Note {
            by,
            call: Said::Compares(path, bytes, false),
        });
        Ok(false)
    }

    pub(crate) fn rename(
        &mut self,
        by: usize,
        from: &[u8],
        to: &[u8],
        works: bool,
    ) -> Result<(), Failed>
        ensures { self.new.trail.events ≡ record { by = by; call = done_or_failed (Renames from.now to.now) result } ∷ self.old.trail.events }
    {
        if !works {
            self.fail(by);
            return Err(Failed);
        }
        let Some(file) = file_named(&self.names, from) else {
            self.fail(by);
            return Err(Failed);
        };
        if let Err(_) = move_name(self.alloc, &mut self.names, from, to, Some(file)) {
            self.trail = self.trail.then(&Note {
                by,
                call: Said::Fails,
            });
            return Err(Failed);
        }
        self.trail = self.trail.then(&Note {
            by,
            call: Said::Renames(from, to),
        });
        Ok(())
    }

    pub(crate) fn unlink(&mut self, by: usize, path: &[u8], works: bool) -> Result<(), Failed>
        ensures { self.new.trail.events ≡ record { by = by; call = done_or_failed (Unlinks path.now) result } ∷ self.old.trail.events }
    {
        if !works {
            self.fail(by);
            return Err(Failed);
        }
        let Some(_) = file_named(&self.names, path) else {
            self.fail(by);
            return Err(Failed);
        };
        if let Err(_) = set_name(self.alloc, &mut self.names, path, None) {
            self.trail = self.trail.then(&Note {
                by,
                call: Said::Fails,
            });
            return Err(Failed);
        }
        self.trail = self.trail.then(&Note {
            by,
            call: Said::Unlinks(path),
        });
        Ok(())
    }

    pub(crate) fn sync_folder(
        &mut self,
        by: usize,
        path: &[u8],
        works: bool,
    ) -> Result<(), FolderSyncFault>
        ensures { self.new.trail.events ≡ record { by = by; call = done_or_failed (SyncsFolder path.now) result } ∷ self.old.trail.events }
    {
        if !works {
            self.fail(by);
            return Err(FolderSyncFault::NotSynced);
        }
        self.trail = self.trail.then(&Note {
            by,
            call: Said::SyncsFolder(path),
        });
        Ok(())
    }
}
