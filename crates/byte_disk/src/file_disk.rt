//! Disks that are files.

ghost use Rattle.std.specs.Prelude.{◌≡◌, ◌≤◌, [], ⊤, false, IfOk, length};

use crate::disk::{Disk, DiskFault};
use byte_io::Tally;
use std::fs::OpenFile;
use std::io::{self, Read, Seek, SeekFrom, Write};

/// An open file as a disk. No contract says what the system does with its bytes.
#[derive(Drop)]
pub struct FileDisk<F> {
    file: F,
    failures: Tally,
}

impl<F: Read + Write + Seek + OpenFile> FileDisk<F> {
    /// The disk of a file that is open for reading and writing.
    pub fn new(file: F) -> FileDisk<F>
        ensures untold { ⟦<FileDisk<F> as Disk>⟧.tells result ≡ false }
        ensures failures { ⟦<FileDisk<F> as Disk>⟧.failures result ≡ 0 }
    {
        FileDisk {
            file,
            failures: Tally::none(),
        }
    }
}

/// Reads until the buffer is full or the file ends.
pub(crate) fn read_in<F: Read + Seek>(file: &mut F, at: u64, buf: &mut [u8]) -> io::Result<usize>
    ensures { IfOk result (λ n. n ≤ length buf.new) }
{
    file.seek(SeekFrom::Start(at))?;
    let mut filled = 0usize;
    while filled < buf.len() {
        let n = file.read(&mut buf[filled..])?;
        if n == 0 {
            return Ok(filled);
        }
        filled += n;
    }
    Ok(filled)
}

pub(crate) fn write_in<F: Write + Seek>(file: &mut F, at: u64, bytes: &[u8]) -> io::Result<()> {
    file.seek(SeekFrom::Start(at))?;
    file.write_all(bytes)?;
    file.flush()
}

impl<F: Read + Write + Seek + OpenFile> Disk for FileDisk<F> {
    ghost tells = { λ _. false };

    ghost seen = { λ _. [] };

    ghost images = { λ _ _. ⊤ };

    ghost moment = { λ _. 0 };

    ghost images_since = { λ _ _ _. ⊤ };

    ghost failures = { λ d. d.failures.count };

    ghost seen_is_image = { λ _ _. tt };

    ghost counts_now = { λ _ _ _ _ _ _. tt };

    ghost only_now = { λ _ _ _ _. tt };

    fn read_at(&mut self, at: u64, buf: &mut [u8]) -> Result<usize, DiskFault> {
        match read_in(&mut self.file, at, buf) {
            Ok(n) => Ok(n),
            Err(_) => {
                self.failures = Tally::after(&self.failures);
                Err(DiskFault)
            }
        }
    }

    fn write_at(&mut self, at: u64, bytes: &[u8]) -> Result<(), DiskFault> {
        if write_in(&mut self.file, at, bytes).is_err() {
            self.failures = Tally::after(&self.failures);
            return Err(DiskFault);
        }
        Ok(())
    }

    fn sync(&mut self) -> Result<(), DiskFault> {
        if self.file.sync_all().is_err() {
            self.failures = Tally::after(&self.failures);
            return Err(DiskFault);
        }
        Ok(())
    }
}
