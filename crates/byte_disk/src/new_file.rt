//! A disk that is the file of a path.

ghost use Rattle.std.specs.Prelude.{◌≡◌, [], ⊤, false};

use crate::disk::{Disk, DiskFault};
use crate::file_disk::{read_in, write_in};
use crate::new_disk::NewDisk;
use byte_io::{NotOpened, Tally};
use std::fs::{OpenFile, OpenOptions};
use std::rt::Files;

/// The file of a path as a disk. Opening creates or truncates it; before that each call fails.
#[derive(Drop)]
pub struct NewFile<'a, R: Files> {
    rt: &'a R,
    path: &'a str,
    file: Option<R::File>,
    failures: Tally,
    openings: Tally,
}

impl<'a, R: Files> NewFile<'a, R> {
    /// The disk of a path. Nothing is opened yet.
    pub fn new(rt: &'a R, path: &'a str) -> NewFile<'a, R>
        ensures path { result.path ≡ path.entry }
        ensures untold { ⟦<NewFile<'a, R> as Disk>⟧.tells result ≡ false }
        ensures failures { ⟦<NewFile<'a, R> as Disk>⟧.failures result ≡ 0 }
        ensures openings { ⟦<NewFile<'a, R> as NewDisk>⟧.openings result ≡ 0 }
    {
        NewFile {
            rt,
            path,
            file: None,
            failures: Tally::none(),
            openings: Tally::none(),
        }
    }
}

impl<R: Files> Disk for NewFile<'_, R> {
    ghost tells = { λ _. false };

    ghost seen = { λ _. [] };

    ghost images = { λ _ _. ⊤ };

    ghost moment = { λ _. 0 };

    ghost images_since = { λ _ _ _. ⊤ };

    ghost failures = { λ d. d.failures.count };

    ghost seen_is_image = { λ _ _. tt };

    ghost counts_now = { λ _ _ _ _ _ _. tt };

    ghost only_now = { λ _ _ _ _. tt };

    fn read_at(&mut self, at: u64, buf: &mut [u8]) -> Result<usize, DiskFault> {
        if let Some(file) = &mut self.file {
            if let Ok(n) = read_in(file, at, buf) {
                return Ok(n);
            }
        }
        self.failures = Tally::after(&self.failures);
        Err(DiskFault)
    }

    fn write_at(&mut self, at: u64, bytes: &[u8]) -> Result<(), DiskFault> {
        if let Some(file) = &mut self.file {
            if write_in(file, at, bytes).is_ok() {
                return Ok(());
            }
        }
        self.failures = Tally::after(&self.failures);
        Err(DiskFault)
    }

    fn sync(&mut self) -> Result<(), DiskFault> {
        if let Some(file) = &self.file {
            if file.sync_all().is_ok() {
                return Ok(());
            }
        }
        self.failures = Tally::after(&self.failures);
        Err(DiskFault)
    }
}

impl<R: Files> NewDisk for NewFile<'_, R> {
    ghost openings = { λ d. d.openings.count };

    fn open(&mut self) -> Result<(), NotOpened> {
        let opened = OpenOptions::new()
            .read(true)
            .write(true)
            .create(true)
            .truncate(true)
            .open(self.rt, self.path);
        match opened {
            Ok(file) => {
                self.openings = Tally::after(&self.openings);
                self.file = Some(file);
                Ok(())
            }
            Err(_) => {
                self.failures = Tally::after(&self.failures);
                Err(NotOpened)
            }
        }
    }
}
