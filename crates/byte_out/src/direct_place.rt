//! The place of a device, a pipe, or a link to no file: what is written where it is, and never replaced. No contract is about the file
//! system.

ghost use Rattle.std.specs.Prelude.{◌≡◌, ◌≤◌, None, OnOk, IfOk, IfErr, length};
ghost use Rattle.byte_io.specs.Device.{target_of};
ghost use Rattle.byte_out.specs.Place.{untold, PutsOnly};

use crate::chunks::Chunks;
use crate::fault::{CompareFault, MakeFault, PutFault};
use crate::place::Place;
use crate::sending::write_chunks;
use byte_io::{DeviceFault, Log, Sink, StdFile, WriteFault, write_all};
use std::fs::{self, OpenFile, OpenOptions};
use std::io::{self, ErrorKind, Read, Write};
use std::rt::Files;

/// The place of what is no plain file, or a name of the system for an open file, such as `/dev/stdout`. `put` writes it, and no call
/// before.
#[derive(Drop)]
pub struct DirectPlace<'a, R: Files> {
    rt: &'a R,
    path: &'a str,
    out: StdFile<R::File>,
    /// What `put` has written.
    pub got: Log,
}

impl<'a, R: Files> DirectPlace<'a, R> {
    /// The place of a path. Nothing is opened yet.
    pub fn new(rt: &'a R, path: &'a str) -> DirectPlace<'a, R>
        ensures path { result.path ≡ path.entry }
        ensures untold { ⟦<DirectPlace<'a, R> as Place>⟧.state result ≡ untold (target_of None) }
    {
        DirectPlace {
            rt,
            path,
            out: StdFile::new(),
            got: Log::empty(),
        }
    }
}

impl<R: Files> Sink for DirectPlace<'_, R> {
    ghost state = { λ s. record {
      written = None;
      taken = s.out.taken.bytes;
      failures = s.out.failures.count;
      stalls = s.out.stalls.count;
      openings = s.out.openings.count;
    } };

    fn write_some(&mut self, buf: &[u8]) -> Result<usize, DeviceFault> {
        // `put` writes the bytes.
        self.out.pass(buf)
    }
}

impl<'a, R: Files> Place for DirectPlace<'a, R> {
    ghost state = { λ s. record {
      sink = record {
        written = None;
        taken = s.out.taken.bytes;
        failures = s.out.failures.count;
        stalls = s.out.stalls.count;
        openings = s.out.openings.count;
      };
      files = None;
    } };

    fn make(&mut self) -> Result<(), MakeFault> {
        match open_direct(self.rt, self.path) {
            Ok(file) => {
                self.out.open(file);
                Ok(())
            }
            Err(_) => {
                self.out.fail();
                Err(MakeFault::NotOpened)
            }
        }
    }

    fn write(&mut self, bytes: &[u8]) -> Result<(), WriteFault> {
        write_all(self, bytes)
    }

    fn sync(&mut self) -> Result<(), DeviceFault> {
        Ok(())
    }

    fn compare(&mut self, read: &[u8]) -> Result<(), CompareFault> {
        let compared = match &self.out.file {
            Some(file) => compare_direct(self.rt, file, self.path, read),
            None => Err(CompareFault::Changed),
        };
        match compared {
            Ok(()) => Ok(()),
            Err(CompareFault::Changed) => Err(CompareFault::Changed),
            Err(fault) => {
                self.out.fail();
                Err(fault)
            }
        }
    }

    fn put<C: Chunks>(&mut self, _read: Option<&[u8]>, content: &mut C) -> Result<(), PutFault>
        ensures calls { PutsOnly result (C.bytes content.old) (⟦<DirectPlace<'a, R> as Place>⟧.state self.old).sink (⟦<DirectPlace<'a, R> as Place>⟧.state self.new).sink }
        ensures got { OnOk result (self.new.got.bytes ≡ C.bytes content.old) }
    {
        put_direct(&mut self.out, &mut self.got, content)
    }

    fn land(&mut self) -> Result<(), DeviceFault> {
        Ok(())
    }

    fn remove(&mut self) {}
}

// A file that is there is opened without the flag to create it: a folder may forbid that for another user's file.
fn open_direct<R: Files>(rt: &R, path: &str) -> io::Result<R::File> {
    let is_none = match fs::metadata(rt, path) {
        Err(error) => error.kind() == ErrorKind::NotFound,
        Ok(_) => false,
    };
    OpenOptions::new()
        .write(true)
        .create(is_none)
        .open(rt, path)
}

// Compares the open file with these bytes. A device or a pipe has nothing to compare.
fn compare_direct<R: Files>(
    rt: &R,
    file: &R::File,
    path: &str,
    bytes: &[u8],
) -> Result<(), CompareFault> {
    match file.metadata() {
        Ok(there) if !there.is_file() => return Ok(()),
        Ok(_) => {}
        Err(_) => return Err(CompareFault::NotOpened),
    }
    match fs::open(rt, path) {
        Ok(mut old) => compare_all(&mut old, bytes),
        Err(error) if error.kind() == ErrorKind::NotFound => Err(CompareFault::Changed),
        Err(_) => Err(CompareFault::NotOpened),
    }
}

// Whether the reader gives exactly these bytes, and ends.
fn compare_all<F: Read>(reader: &mut F, bytes: &[u8]) -> Result<(), CompareFault> {
    let mut rest = bytes;
    let mut block = [0; 16_384];
    for _ in 0..u64::MAX {
        let n = match reader.read(&mut block) {
            Ok(n) => n,
            Err(error) if error.kind() == ErrorKind::Interrupted => continue,
            Err(_) => return Err(CompareFault::ReadFailed(bytes.len().saturating_sub(rest.len()))),
        };
        if n == 0 && rest.is_empty() {
            return Ok(());
        }
        if n == 0 || n > rest.len() || block[..n] != rest[..n] {
            return Err(CompareFault::Changed);
        }
        rest = &rest[n..];
    }
    Err(CompareFault::Changed)
}

// Writes the bytes to the file that is open, and closes it.
fn put_direct<F: Write + OpenFile + Drop, C: Chunks>(
    out: &mut StdFile<F>,
    got: &mut Log,
    content: &mut C,
) -> Result<(), PutFault>
    ensures calls { PutsOnly result (C.bytes content.old) (⟦<StdFile<F> as Sink>⟧.state out.old) (⟦<StdFile<F> as Sink>⟧.state out.new) }
    ensures got { OnOk result (got.new.bytes ≡ C.bytes content.old) }
{
    let Some(file) = out.file.take() else {
        out.fail();
        return Err(PutFault::NotOpened);
    };
    match write_direct(file, content) {
        Ok(taken) => {
            *got = taken;
            Ok(())
        }
        Err(fault) => {
            out.fail();
            Err(PutFault::WriteFailed(fault.written))
        }
    }
}

// Writes the bytes to an open file, and closes it. One that is a plain file is emptied first, and synced.
fn write_direct<F: Write + OpenFile + Drop, C: Chunks>(
    file: F,
    content: &mut C,
) -> Result<Log, WriteFault>
    ensures got { IfOk result (λ l. l.bytes ≡ C.bytes content.old) }
    ensures fits { IfErr result (λ e. e.written ≤ length (C.bytes content.old)) }
{
    let is_plain = match file.metadata() {
        Ok(there) => there.is_file(),
        Err(_) => return Err(WriteFault { written: 0 }),
    };
    if is_plain && file.set_len(0).is_err() {
        return Err(WriteFault { written: 0 });
    }
    let mut sink = StdFile::new();
    sink.open(file);
    if let Err(fault) = write_chunks(&mut sink, content) {
        return Err(fault);
    }
    if is_plain && !is_sure(&sink.file) {
        return Err(WriteFault {
            written: content.len(),
        });
    }
    let StdFile {
        file: _,
        taken,
        failures: _,
        stalls: _,
        openings: _,
    } = sink;
    Ok(taken)
}

fn is_sure<F: OpenFile>(file: &Option<F>) -> bool {
    match file {
        Some(file) => file.sync_all().is_ok(),
        None => false,
    }
}
