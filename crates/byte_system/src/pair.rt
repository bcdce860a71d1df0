//! A lock file, and the new file beside it. To the callers of a system both are one file: the lock file has the name and the lock, and
//! the new file has the bytes. So a lock file never has a register in it, and no other command ever names the new file of this one.

ghost use Rattle.std.specs.Prelude.{◌≡◌};

use crate::host_answers::{make_fault, permissions};
use crate::host_system::{HostSystem, NewFile, Opened, Origin};
use crate::maker::maker_of;
use crate::own::{LONGEST, line_in, path_of};
use crate::system::{Mode, NewFileFault};
use std::fs::{self, File, OpenFile, OpenOptions};
use std::io::Write;
use std::os::unix::fs::{MetadataExt, OpenOptionsExt};
use std::str;
use std::thread::sleep;
use std::time::Duration;

/// How often an empty lock file is looked at, and how many milliseconds the pause after each look takes.
const LOOKS: usize = 50;

const PAUSE: u64 = 20;

impl HostSystem<'_> {
    /// Makes the lock file with this name, and beside it the new file. Returns their number.
    pub(crate) fn make_pair(&mut self, path: &[u8], mode: Mode) -> Result<usize, NewFileFault>
        ensures { self.new.trail ≡ self.old.trail }
    {
        let Ok(path) = str::from_utf8(path) else {
            return Err(NewFileFault::NotMade);
        };
        if self.open.reserve(1).is_err() {
            return Err(NewFileFault::NotMade);
        }
        if let Some(file) = self.take_kept() {
            return self.number_kept(file, path, mode);
        }
        if self.is_there(path) {
            return Err(NewFileFault::Exists);
        }
        // The line is whole before there is a file for it, so that a stop leaves an empty lock file as rarely as can be.
        if self.own.set_line(self.rt, path).is_none() {
            return Err(NewFileFault::NotMade);
        }
        match OpenOptions::new()
            .append(true)
            .create_new(true)
            .mode(permissions(Mode::Usual))
            .open(self.rt, path)
        {
            Ok(file) => self.number_pair(file, path, mode),
            Err(_) if self.is_there(path) => Err(NewFileFault::Exists),
            Err(error) => Err(make_fault(error.kind())),
        }
    }

    // The number of a lock file that was made, and of its new file. It is locked before it has a line, so that nobody takes its maker for
    // one that has ended. If no new file can be made, it is removed.
    fn number_pair(&mut self, file: File, path: &str, mode: Mode) -> Result<usize, NewFileFault>
        ensures { self.new.trail ≡ self.old.trail }
    {
        let number = self.add(file)?;
        if self.is_locked(number) == Some(false) {
            return Err(NewFileFault::Exists);
        }
        let is_begun = if self.has_line(number) {
            self.add_new(number, path, mode)
        } else {
            self.add_none(number)
        };
        if is_begun.is_some() {
            return Ok(number);
        }
        if self.is_at(path.as_bytes(), number) == Some(true) {
            let _ = fs::remove_file(self.rt, path);
        }
        Err(NewFileFault::NotMade)
    }

    // The number of a lock file that this process has.
    fn add(&mut self, file: File) -> Result<usize, NewFileFault>
        ensures { self.new.trail ≡ self.old.trail }
    {
        let number = self.open.len();
        let opened = Opened {
            file: Some(file),
            origin: Origin::Made,
            new: None,
        };
        if self.open.push(opened).is_err() {
            return Err(NewFileFault::NotMade);
        }
        Ok(number)
    }

    // Writes the line of a lock file that was made just now. The disk may be full.
    fn has_line(&mut self, number: usize) -> bool
        ensures { self.new.trail ≡ self.old.trail }
    {
        match self.open.get_mut(number) {
            Some(
                Opened {
                    file: Some(lock),
                    ..
                },
            ) => lock.write_all(self.own.line().as_bytes()).is_ok(),
            _ => false,
        }
    }

    // A lock file without a line has no new file: nothing can be written.
    fn add_none(&mut self, number: usize) -> Option<()>
        ensures { self.new.trail ≡ self.old.trail }
    {
        let path = String::new(self.rt.alloc());
        self.open.get_mut(number)?.new = Some(NewFile { path, file: None });
        Some(())
    }

    // The lock file that is kept.
    fn take_kept(&mut self) -> Option<File>
        ensures { self.new.trail ≡ self.old.trail }
    {
        for opened in self.open.iter_mut() {
            if opened.origin == Origin::Kept {
                return opened.file.take();
            }
        }
        None
    }

    // The number of a lock file that is kept, and of its new file. Its line stays that of the process that left it.
    fn number_kept(&mut self, file: File, path: &str, mode: Mode) -> Result<usize, NewFileFault>
        ensures { self.new.trail ≡ self.old.trail }
    {
        let number = self.add(file)?;
        match self.add_new(number, path, mode) {
            Some(()) => Ok(number),
            None => Err(NewFileFault::NotMade),
        }
    }

    // Makes the new file beside a lock file that this process has.
    fn add_new(&mut self, number: usize, lock: &str, mode: Mode) -> Option<()>
        ensures { self.new.trail ≡ self.old.trail }
    {
        let path = self.own.new_path(self.rt.alloc(), lock)?;
        let opened = self.open.get_mut(number)?;
        match OpenOptions::new()
            .append(true)
            .create_new(true)
            .mode(permissions(mode))
            .open(self.rt, path.as_str())
        {
            Ok(file) => {
                opened.new = Some(NewFile {
                    path,
                    file: Some(file),
                });
                Some(())
            }
            Err(_) => {
                // A network may answer with a fault, and have made it: nobody else has this name.
                let _ = fs::remove_file(self.rt, path.as_str());
                None
            }
        }
    }

    /// Opens the lock file with this name, if its command has ended for sure, once its lock is taken. Returns its number.
    pub(crate) fn open_pair(&mut self, path: &[u8]) -> Option<usize>
        ensures { self.new.trail ≡ self.old.trail }
    {
        let path = str::from_utf8(path).ok()?;
        let mut file = self.open_left(path)?;
        let new = self.left_by(&mut file, path)?;
        let number = self.open.len();
        self.open
            .push(Opened {
                file: Some(file),
                origin: Origin::Left,
                new,
            })
            .ok()?;
        Some(number)
    }

    // Opens a lock file, which this user may not write.
    fn open_left(&self, path: &str) -> Option<File> {
        match OpenOptions::new()
            .read(true)
            .append(true)
            .open(self.rt, path)
        {
            Ok(file) => Some(file),
            Err(_) => fs::open(self.rt, path).ok(),
        }
    }

    // The new file of a command that has ended, if its lock can be taken. None if nobody knows whether it has.
    fn left_by(&self, file: &mut File, path: &str) -> Option<Option<NewFile>> {
        let mut block = [0; LONGEST];
        let line = line_in(file, &mut block)?;
        if line.is_empty() {
            if self.takes_empty && self.stays_empty(file) {
                return Some(None);
            }
            return None;
        }
        let alloc = self.rt.alloc();
        let left = maker_of(line)?;
        if !self.own.is_proof(alloc, self.rt, &left, path)? {
            return None;
        }
        let path = path_of(alloc, path, left.mark)?;
        Some(Some(NewFile { path, file: None }))
    }

    // Whether nobody writes to an empty file for a while. Whoever makes a lock file writes its line at once.
    fn stays_empty(&self, file: &File) -> bool {
        for _ in 0..LOOKS {
            sleep(self.rt, Duration::from_millis(PAUSE));
            match file.metadata() {
                Ok(there) if there.len() == 0 => {}
                _ => return false,
            }
        }
        true
    }
}
