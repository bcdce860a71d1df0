//! The calls on open files in memory, which are named by their numbers.

ghost use Rattle.std.specs.Prelude.{◌≡◌, ◌≤◌, ◌∷◌};

use crate::entries::{Lock, append, file_named, holder_of, is_file, may_lock, set_lock};
use crate::files::Files;
use crate::system::Failed;
use crate::trail::{Note, Said};

impl Files {
    ghost use Rattle.byte_system.specs.Disk.{Likens, Locks, Looks, Syncs, Ends};
    ghost use Rattle.byte_system.specs.System.{done_or_failed, told_or_failed, write_call};

    /// Files in memory are open to all.
    pub(crate) fn make_alike(
        &mut self,
        by: usize,
        file: usize,
        path: &[u8],
        works: bool,
    ) -> Result<(), Failed>
        ensures { self.new.trail.events ≡ record { by = by; call = done_or_failed (Likens file path.now) result } ∷ self.old.trail.events }
    {
        if !works {
            self.fail(by);
            return Err(Failed);
        }
        let Some(_) = file_named(&self.names, path) else {
            self.fail(by);
            return Err(Failed);
        };
        self.trail = self.trail.then(&Note {
            by,
            call: Said::Likens(file, path),
        });
        Ok(())
    }

    pub(crate) fn lock(&mut self, by: usize, file: usize, works: bool) -> Result<bool, Failed>
        ensures { self.new.trail.events ≡ record { by = by; call = told_or_failed (Locks file) result } ∷ self.old.trail.events }
    {
        if !works {
            self.fail(by);
            return Err(Failed);
        }
        if self.count <= file {
            self.fail(by);
            return Err(Failed);
        }
        if !may_lock(holder_of(&self.locks, file), by) {
            self.trail = self.trail.then(&Note {
                by,
                call: Said::Locks(file, false),
            });
            return Ok(false);
        }
        if let Err(_) = set_lock(&mut self.locks, Lock::Taken(file, by)) {
            self.trail = self.trail.then(&Note {
                by,
                call: Said::Fails,
            });
            return Err(Failed);
        }
        self.trail = self.trail.then(&Note {
            by,
            call: Said::Locks(file, true),
        });
        Ok(true)
    }

    pub(crate) fn is_named(
        &mut self,
        by: usize,
        path: &[u8],
        file: usize,
        works: bool,
    ) -> Result<bool, Failed>
        ensures { self.new.trail.events ≡ record { by = by; call = told_or_failed (Looks path.now file) result } ∷ self.old.trail.events }
    {
        if !works {
            self.fail(by);
            return Err(Failed);
        }
        if is_file(file_named(&self.names, path), file) {
            self.trail = self.trail.then(&Note {
                by,
                call: Said::Looks(path, file, true),
            });
            return Ok(true);
        }
        self.trail = self.trail.then(&Note {
            by,
            call: Said::Looks(path, file, false),
        });
        Ok(false)
    }

    /// A call that a test lets fail writes half of the bytes.
    pub(crate) fn write(&mut self, by: usize, file: usize, bytes: &[u8], works: bool) -> usize
        ensures { self.new.trail.events ≡ record { by = by; call = write_call file bytes.now result } ∷ self.old.trail.events }
    {
        let n = count_for(bytes.len(), works);
        if self.count <= file {
            self.trail = self.trail.then(&Note {
                by,
                call: Said::Writes(file, &[]),
            });
            return 0;
        }
        if let Err(_) = append(self.alloc, &mut self.held, file, &bytes[..n]) {
            self.trail = self.trail.then(&Note {
                by,
                call: Said::Writes(file, &[]),
            });
            return 0;
        }
        self.trail = self.trail.then(&Note {
            by,
            call: Said::Writes(file, &bytes[..n]),
        });
        n
    }

    pub(crate) fn sync(&mut self, by: usize, file: usize, works: bool) -> Result<(), Failed>
        ensures { self.new.trail.events ≡ record { by = by; call = done_or_failed (Syncs file) result } ∷ self.old.trail.events }
    {
        if !works {
            self.fail(by);
            return Err(Failed);
        }
        self.trail = self.trail.then(&Note {
            by,
            call: Said::Syncs(file),
        });
        Ok(())
    }

    /// The process ends, and so do its locks.
    pub(crate) fn end(&mut self, by: usize) -> Result<(), Failed>
        ensures { self.new.trail.events ≡ record { by = by; call = done_or_failed Ends result } ∷ self.old.trail.events }
    {
        if let Err(_) = set_lock(&mut self.locks, Lock::Ended(by)) {
            self.trail = self.trail.then(&Note {
                by,
                call: Said::Fails,
            });
            return Err(Failed);
        }
        self.trail = self.trail.then(&Note {
            by,
            call: Said::Ends,
        });
        Ok(())
    }
}

fn count_for(len: usize, works: bool) -> usize
    ensures { result ≤ len }
{
    if works {
        return len;
    }
    len / 2
}
