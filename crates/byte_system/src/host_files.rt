//! The calls of std behind those of a system, for names that are text. What a call does there is read, not proved: each function makes
//! the calls of its name.

ghost use Rattle.std.specs.Prelude.{◌≡◌, ◌≤◌, length};

use crate::host_answers::{make_fault, permissions, there_is};
use crate::host_system::{HostSystem, Opened, Origin};
use crate::likeness::make_alike;
use crate::system::{Failed, FileReadFault, FolderSyncFault, Mode, NewFileFault, There};
use std::fs::{self, File, Metadata, OpenFile, OpenOptions, TryLockError};
use std::io::{ErrorKind, Read, Write};
use std::os::unix::fs::{MetadataExt, OpenOptionsExt};
use std::str;
use std::thread::sleep;
use std::time::Duration;

/// How often a file without a name is looked at, and how many milliseconds the pause after each look takes.
const LOOKS: usize = 50;

const PAUSE: u64 = 5;

impl HostSystem<'_> {
    // The number of an open file.
    fn number(&mut self, file: File, origin: Origin) -> Option<usize>
        ensures { self.new.trail ≡ self.old.trail }
    {
        let opened = file.metadata().ok()?;
        for (i, other) in self.open.iter().enumerate() {
            match other.metadata() {
                Some(there) if is_same(&there, &opened) => return Some(i),
                _ => {}
            }
        }
        let number = self.open.len();
        self.open
            .push(Opened {
                file: Some(file),
                origin,
                new: None,
            })
            .ok()?;
        Some(number)
    }

    /// What has the name; none if it could not be looked at. While another process renames a file over it, the system may answer for
    /// the old file, which has no name any more. So a file without a name is looked at again for a while.
    pub(crate) fn found_at(&self, path: &[u8]) -> Option<There> {
        let path = str::from_utf8(path).ok()?;
        for _ in 0..LOOKS {
            match fs::symlink_metadata(self.rt, path) {
                Ok(there) => match there_is(&there) {
                    None => sleep(self.rt, Duration::from_millis(PAUSE)),
                    found => return found,
                },
                Err(error) if error.kind() == ErrorKind::NotFound => return Some(There::Nothing),
                Err(_) => return None,
            }
        }
        None
    }

    /// Opens the open file to the same people as the one with the name; none if that failed.
    pub(crate) fn likens(&self, file: usize, path: &[u8]) -> Option<()> {
        let old = fs::symlink_metadata(self.rt, str::from_utf8(path).ok()?).ok()?;
        match self.open.get(file)?.content() {
            Some(new) => make_alike(new, &old).ok(),
            None => Some(()),
        }
    }

    /// Makes a new file. Returns its number.
    pub(crate) fn make_at(&mut self, path: &[u8], mode: Mode) -> Result<usize, NewFileFault>
        ensures { self.new.trail ≡ self.old.trail }
    {
        let Ok(path) = str::from_utf8(path) else {
            return Err(NewFileFault::NotMade);
        };
        // Without room for its number, no file is made.
        if self.open.reserve(1).is_err() {
            return Err(NewFileFault::NotMade);
        }
        match OpenOptions::new()
            .append(true)
            .create_new(true)
            .mode(permissions(mode))
            .open(self.rt, path)
        {
            Ok(file) => self.number_made(file, path),
            // Some file systems of networks answer that a file that is there is forbidden.
            Err(_) if self.is_there(path) => Err(NewFileFault::Exists),
            Err(error) => Err(make_fault(error.kind())),
        }
    }

    pub(crate) fn is_there(&self, path: &str) -> bool {
        fs::symlink_metadata(self.rt, path).is_ok()
    }

    // The number of a file that was made. One that gets none is removed.
    fn number_made(&mut self, file: File, path: &str) -> Result<usize, NewFileFault>
        ensures { self.new.trail ≡ self.old.trail }
    {
        let Some(number) = self.number(file, Origin::Made) else {
            let _ = fs::remove_file(self.rt, path);
            return Err(NewFileFault::NotMade);
        };
        Ok(number)
    }

    /// Opens the file with the name. Returns its number.
    pub(crate) fn open_at(&mut self, path: &[u8]) -> Option<usize>
        ensures { self.new.trail ≡ self.old.trail }
    {
        let path = str::from_utf8(path).ok()?;
        let file = OpenOptions::new().append(true).open(self.rt, path).ok()?;
        self.number(file, Origin::Opened)
    }

    /// Asks for the lock of an open file. Where the file system has no locks, whoever made a file has its lock, and nobody else.
    pub(crate) fn is_locked(&self, file: usize) -> Option<bool> {
        let opened = self.open.get(file)?;
        match opened.file.as_ref()?.try_lock() {
            Ok(()) => Some(true),
            Err(TryLockError::WouldBlock) => {
                self.remove_new(opened);
                Some(false)
            }
            Err(TryLockError::Error(_)) if opened.origin == Origin::Made => Some(true),
            Err(TryLockError::Error(_)) => None,
        }
    }

    /// Whether the name leads to the open file; none if it could not be looked at.
    pub(crate) fn is_at(&self, path: &[u8], file: usize) -> Option<bool> {
        let opened = self.open.get(file)?;
        let made = opened.metadata()?;
        let is_named = match fs::symlink_metadata(self.rt, str::from_utf8(path).ok()?) {
            Ok(there) => is_same(&there, &made),
            Err(error) if error.kind() == ErrorKind::NotFound => false,
            Err(_) => return None,
        };
        if !is_named {
            self.remove_new(opened);
        }
        Some(is_named)
    }

    /// Whether the file with the name has exactly these bytes. Where there is none, it has not.
    pub(crate) fn has_at(&self, path: &[u8], bytes: &[u8]) -> Result<bool, FileReadFault> {
        let Ok(path) = str::from_utf8(path) else {
            return Err(FileReadFault::NotOpened);
        };
        match fs::open(self.rt, path) {
            Ok(mut file) => gives(&mut file, bytes),
            Err(error) => match error.kind() {
                ErrorKind::NotFound => Ok(false),
                _ => Err(FileReadFault::NotOpened),
            },
        }
    }

    /// Renames a file. Nothing is done if the two names are one. A process that has a lock file renames the new file beside it, never the
    /// lock file, and then removes the lock file.
    pub(crate) fn renames(&mut self, from: &[u8], to: &[u8]) -> Result<(), Failed>
        ensures { self.new.trail ≡ self.old.trail }
    {
        let (Ok(from), Ok(to)) = (str::from_utf8(from), str::from_utf8(to)) else {
            return Err(Failed);
        };
        if from == to {
            return Err(Failed);
        }
        if self.has_lock_file() {
            return self.puts(from, to);
        }
        if self.is_renamed(from, to) {
            return Ok(());
        }
        Err(Failed)
    }

    /// Renames a file. A network may answer a rename that is done with a fault; and some file systems move the file that is replaced
    /// aside first, and then fail. So a rename that failed is looked at, and done once more if nothing has the new name.
    pub(crate) fn is_renamed(&self, from: &str, to: &str) -> bool {
        let file = fs::symlink_metadata(self.rt, from);
        if fs::rename(self.rt, from, to).is_ok() {
            return true;
        }
        match (file, fs::symlink_metadata(self.rt, to)) {
            (Ok(file), Ok(there)) => is_same(&file, &there),
            (Ok(_), Err(fault)) if fault.kind() == ErrorKind::NotFound => {
                fs::rename(self.rt, from, to).is_ok()
            }
            _ => false,
        }
    }

    /// Removes a file. Of a lock file the new file beside it is removed first; but not one that a stopped process left where nothing has
    /// the name: it is the only one. A lock file that was left, and may not be removed, is kept by this process. A process that has a
    /// lock file removes nothing else. Returns whether that worked.
    pub(crate) fn removes(&mut self, path: &[u8]) -> bool
        ensures { self.new.trail ≡ self.old.trail }
    {
        let Ok(path) = str::from_utf8(path) else {
            return false;
        };
        if !self.has_lock_file() {
            return fs::remove_file(self.rt, path).is_ok();
        }
        let Some(number) = self.file_at(path) else {
            return false;
        };
        self.remove_beside(number, path);
        fs::remove_file(self.rt, path).is_ok() || self.keeps(number, path)
    }

    /// Syncs the folder of a name.
    pub(crate) fn syncs_folder(&self, path: &[u8]) -> Result<(), FolderSyncFault> {
        let Ok(path) = str::from_utf8(path) else {
            return Err(FolderSyncFault::NotOpened);
        };
        match fs::open(self.rt, folder(path)) {
            Ok(folder) => match folder.sync_all() {
                Ok(()) => Ok(()),
                Err(_) => Err(FolderSyncFault::NotSynced),
            },
            Err(error) if error.kind() == ErrorKind::PermissionDenied => {
                Err(FolderSyncFault::Forbidden)
            }
            Err(_) => Err(FolderSyncFault::NotOpened),
        }
    }
}

pub(crate) fn is_same(a: &Metadata, b: &Metadata) -> bool {
    a.dev() == b.dev() && a.ino() == b.ino()
}

/// Writes the bytes to an open file, as many as it takes: to the new file beside it, if it is a lock file. Returns how many.
pub(crate) fn write_opened(opened: &mut Opened, bytes: &[u8]) -> usize
    ensures { result ≤ length bytes.now }
{
    match opened.content_mut() {
        Some(file) => write_to(file, bytes),
        None => 0,
    }
}

/// Syncs an open file: the new file beside it, if it is a lock file. Returns whether that worked.
pub(crate) fn is_synced(opened: &Opened) -> bool {
    match opened.content() {
        Some(file) => file.sync_all().is_ok(),
        None => false,
    }
}

// Writes the bytes to a file, as many as it takes. Returns how many.
fn write_to(file: &mut File, bytes: &[u8]) -> usize
    ensures { result ≤ length bytes.now }
{
    let mut rest = bytes;
    for _ in 0..bytes.len() {
        let Ok(n) = file.write(rest) else {
            break;
        };
        if n == 0 || n > rest.len() {
            break;
        }
        rest = &rest[n..];
        if rest.is_empty() {
            break;
        }
    }
    bytes.len().saturating_sub(rest.len())
}

// Whether the file gives exactly these bytes.
fn gives(file: &mut File, bytes: &[u8]) -> Result<bool, FileReadFault> {
    let mut rest = bytes;
    let mut chunk = [0; 16_384];
    for _ in 0..u64::MAX {
        let n = match file.read(&mut chunk) {
            Ok(n) => n,
            Err(error) if error.kind() == ErrorKind::Interrupted => continue,
            Err(_) => return Err(FileReadFault::Cut(bytes.len().saturating_sub(rest.len()))),
        };
        if n == 0 {
            return Ok(rest.is_empty());
        }
        if n > rest.len() || chunk[..n] != rest[..n] {
            return Ok(false);
        }
        rest = &rest[n..];
    }
    Ok(false)
}

/// The folder of the file at a path.
pub(crate) fn folder(path: &str) -> &str {
    match path.rsplit_once('/') {
        Some(("", _)) => "/",
        Some((folder, _)) => folder,
        None => ".",
    }
}
