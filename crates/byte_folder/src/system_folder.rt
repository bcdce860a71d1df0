//! The place of a path in the file system. No contract is about the file system.

ghost use Rattle.std.specs.Prelude.{◌≡◌, ◌++◌, [], take, length, None, IfOk, codes};
ghost use Rattle.std.specs.String.{string_bytes};
ghost use Rattle.byte_io.specs.Device.{target_of};
ghost use Rattle.byte_folder.specs.Folder.{untold};

use crate::fault::MakeFolderFault;
use crate::place::FolderPlace;
use crate::way::{make_folder, path_in, remove_folder, without_slashes};
use byte_io::{DeviceFault, NotOpened, PublishFault, Sink, StdFile, Target, publish};
use std::alloc::{AllocError, Global};
use std::fs::{self, OpenOptions};
use std::rt::Files;

/// The place of a path. The new folder has its name with `.new`.
#[derive(Drop)]
pub struct SystemFolder<'a, R: Files> {
    alloc: Global,
    rt: &'a R,
    path: &'a str,
    beside: String,
    next: String,
    out: StdFile<R::File>,
}

impl<'a, R: Files> SystemFolder<'a, R> {
    /// The place of a path. Nothing is made yet.
    pub fn new(alloc: Global, rt: &'a R, path: &'a str) -> Result<SystemFolder<'a, R>, AllocError>
        ensures path { IfOk result (λ p. p.path.now ≡ take (length p.path.now) path.entry.now) }
        ensures named { IfOk result (λ p. p.path.now ≡ [] → path.entry.now ≡ []) }
        ensures beside { IfOk result (λ p. string_bytes p.beside ≡ p.path.now ++ codes ".new") }
        ensures untold { IfOk result
            (λ p. ⟦<SystemFolder<'a, R> as FolderPlace>⟧.state p ≡ untold (target_of None)) }
    {
        let path = without_slashes(path);
        let beside = format!(in alloc; "{path}.new")?;
        let next = String::new(alloc);
        Ok(SystemFolder {
            alloc,
            rt,
            path,
            beside,
            next,
            out: StdFile::new(),
        })
    }
}

impl<R: Files> Sink for SystemFolder<'_, R> {
    ghost state = { λ s. record {
      written = None;
      taken = s.out.taken.bytes;
      failures = s.out.failures.count;
      stalls = s.out.stalls.count;
      openings = s.out.openings.count;
    } };

    fn write_some(&mut self, buf: &[u8]) -> Result<usize, DeviceFault> {
        self.out.write_some(buf)
    }
}

impl<R: Files> Target for SystemFolder<'_, R> {
    /// Makes the next file of the new folder. There is none with its name.
    fn open(&mut self) -> Result<(), NotOpened> {
        let made = OpenOptions::new()
            .write(true)
            .create_new(true)
            .open(self.rt, &self.next);
        match made {
            Ok(file) => {
                self.out.open(file);
                Ok(())
            }
            Err(_) => {
                self.out.fail();
                Err(NotOpened)
            }
        }
    }
}

impl<R: Files> FolderPlace for SystemFolder<'_, R> {
    ghost state = { λ s. record {
      sink = record {
        written = None;
        taken = s.out.taken.bytes;
        failures = s.out.failures.count;
        stalls = s.out.stalls.count;
        openings = s.out.openings.count;
      };
      folders = None;
    } };

    fn make(&mut self) -> Result<(), MakeFolderFault> {
        match make_folder(self.rt, self.path, &self.beside) {
            Ok(()) => Ok(()),
            Err(fault) => {
                self.out.fail();
                Err(fault)
            }
        }
    }

    fn add(&mut self, name: &[u8], bytes: &[u8]) -> Result<(), PublishFault> {
        match path_in(self.alloc, &self.beside, name) {
            Some(next) => self.next = next,
            None => {
                self.out.fail();
                return Err(PublishFault::NotOpened);
            }
        }
        publish(self, bytes)
    }

    fn put(&mut self) -> Result<(), NotOpened> {
        // The last file is closed first.
        self.out.file = None;
        match fs::rename(self.rt, &self.beside, self.path) {
            Ok(()) => Ok(()),
            Err(_) => {
                self.out.fail();
                Err(NotOpened)
            }
        }
    }

    fn remove(&mut self) {
        self.out.file = None;
        remove_folder(self.alloc, self.rt, &self.beside);
    }
}
