//! How the new file beside a lock file takes the place of the old one, or is removed.

ghost use Rattle.std.specs.Prelude.{◌≡◌};

use crate::host_files::is_same;
use crate::host_system::{HostSystem, NewFile, Opened, Origin};
use crate::own::old_path;
use crate::system::Failed;
use std::fs;

impl HostSystem<'_> {
    /// Renames the new file beside the lock file with this name, and removes the lock file. If that fails, and there may be no old file
    /// any more, nobody removes the new one.
    pub(crate) fn puts(&mut self, lock: &str, old: &str) -> Result<(), Failed>
        ensures { self.new.trail ≡ self.old.trail }
    {
        let Some(number) = self.file_at(lock) else {
            return Err(Failed);
        };
        if self.is_new_renamed(number, old) {
            if self.file_at(lock) == Some(number) {
                let _ = fs::remove_file(self.rt, lock);
            }
            return Ok(());
        }
        if self.is_there(old) {
            return Err(Failed);
        }
        if let Some(opened) = self.open.get_mut(number) {
            opened.new = None;
        }
        Err(Failed)
    }

    // Renames the new file beside an open lock file.
    fn is_new_renamed(&self, number: usize, old: &str) -> bool {
        match self.open.get(number) {
            Some(
                Opened {
                    new: Some(
                        NewFile {
                            path,
                            file: Some(_),
                        },
                    ),
                    ..
                },
            ) => self.is_renamed(path.as_str(), old),
            _ => false,
        }
    }

    /// Whether one of the open files is a lock file.
    pub(crate) fn has_lock_file(&self) -> bool {
        for opened in self.open.iter() {
            match opened.origin {
                Origin::Left | Origin::Kept => return true,
                Origin::Made if opened.new.is_some() => return true,
                Origin::Made | Origin::Opened => {}
            }
        }
        false
    }

    /// The open file to which the name leads.
    pub(crate) fn file_at(&self, path: &str) -> Option<usize> {
        let there = fs::symlink_metadata(self.rt, path).ok()?;
        for (i, opened) in self.open.iter().enumerate() {
            match opened.metadata() {
                Some(made) if is_same(&there, &made) => return Some(i),
                _ => {}
            }
        }
        None
    }

    /// Removes the new file beside an open lock file.
    pub(crate) fn remove_beside(&self, number: usize, lock: &str) {
        let Some(Opened { new: Some(new), .. }) = self.open.get(number) else {
            return;
        };
        if new.file.is_some() || self.has_old(lock) {
            let _ = fs::remove_file(self.rt, new.path.as_str());
        }
    }

    /// Whether the name leads to this lock file, which was left, and is kept from now on.
    pub(crate) fn keeps(&mut self, number: usize, path: &str) -> bool
        ensures { self.new.trail ≡ self.old.trail }
    {
        if self.file_at(path) != Some(number) {
            return false;
        }
        match self.open.get_mut(number) {
            Some(opened) if opened.origin == Origin::Left => {
                opened.origin = Origin::Kept;
                true
            }
            _ => false,
        }
    }

    // Whether there is a file whose lock file this is.
    fn has_old(&self, lock: &str) -> bool {
        match old_path(self.rt.alloc(), lock) {
            Some(old) => self.is_there(old.as_str()),
            None => false,
        }
    }

    /// Removes the new file of a lock file that has lost its name.
    pub(crate) fn remove_new(&self, opened: &Opened) {
        if let Some(new) = &opened.new {
            if new.file.is_some() {
                let _ = fs::remove_file(self.rt, new.path.as_str());
            }
        }
    }
}
