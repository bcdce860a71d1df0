//! Who a process is, as its lock file tells it.

use crate::host_files::folder;
use crate::maker::{Maker, UNKNOWN, is_proof};
use std::alloc::{AllocError, Global};
use std::fmt::Write as _;
use std::fs::{self, File, OpenFile};
use std::io::{ErrorKind, Read};
use std::os::unix::fs::MetadataExt;
use std::random::RandomSource;
use std::str;

/// The longest line of a lock file.
pub(crate) const LONGEST: usize = 400;

/// The longest word of such a line.
const WORD: usize = 80;

/// Room for the longest path of the system, and a mark.
const PATH: usize = 4200;

/// Who a process is: the words of its lock file, which have no blanks. The memory for its line and for the path of its new file is there
/// before the lock file is made.
#[derive(Drop)]
pub(crate) struct Own {
    machine: String,
    boot: String,
    host: String,
    /// 16 hexadecimal digits, which no other process has; none if the system gives no random bytes.
    mark: String,
    line: String,
    path: Option<String>,
}

impl Own {
    pub(crate) fn new(alloc: Global, rt: &HostRuntime) -> Result<Own, AllocError> {
        let mut line = String::new(alloc);
        line.reserve(LONGEST)?;
        let mut path = String::new(alloc);
        path.reserve(PATH)?;
        Ok(Own {
            machine: word_in(alloc, rt, "/etc/machine-id")?,
            boot: word_in(alloc, rt, "/proc/sys/kernel/random/boot_id")?,
            host: word_in(alloc, rt, "/proc/sys/kernel/hostname")?,
            mark: mark(alloc, rt)?,
            line,
            path: Some(path),
        })
    }

    /// Makes the line for a lock file with this path.
    pub(crate) fn set_line(&mut self, rt: &HostRuntime, path: &str) -> Option<()> {
        if self.mark.is_empty() {
            return None;
        }
        let Own {
            machine,
            boot,
            host,
            mark,
            line,
            path: _,
        } = self;
        line.clear();
        match device_at(rt, path) {
            Some(device) => write!(
                line,
                "crsreg lock {machine} {boot} {device} {mark} {host}\n"
            )
            .ok(),
            None => write!(
                line,
                "crsreg lock {machine} {boot} {UNKNOWN} {mark} {host}\n"
            )
            .ok(),
        }
    }

    pub(crate) fn line(&self) -> &str {
        self.line.as_str()
    }

    /// The path of the new file beside the lock file with this path.
    pub(crate) fn new_path(&mut self, alloc: Global, lock: &str) -> Option<String> {
        let mut path = match self.path.take() {
            Some(path) => path,
            None => String::new(alloc),
        };
        add_mark(&mut path, lock, self.mark.as_str())?;
        Some(path)
    }

    /// Whether the lock of a lock file with this path tells that the command which made it has ended.
    pub(crate) fn is_proof(
        &self,
        alloc: Global,
        rt: &HostRuntime,
        left: &Maker<'_>,
        path: &str,
    ) -> Option<bool> {
        let device = device_at(rt, path)?;
        let device = format!(in alloc; "{device}").ok()?;
        let own = Maker {
            machine: self.machine.as_str(),
            boot: self.boot.as_str(),
            device: device.as_str(),
            mark: left.mark,
        };
        Some(is_proof(left, &own))
    }
}

// The number of the device of the folder.
fn device_at(rt: &HostRuntime, path: &str) -> Option<u64> {
    let there = fs::metadata(rt, folder(path)).ok()?;
    Some(there.dev())
}

// Appends the path of the new file with this mark: it stands between the name and `.crsreg`.
fn add_mark(path: &mut String, lock: &str, mark: &str) -> Option<()> {
    path.push_str(lock.strip_suffix("crsreg")?).ok()?;
    path.push_str(mark).ok()?;
    path.push_str(".crsreg").ok()
}

/// The path of the new file with this mark.
pub(crate) fn path_of(alloc: Global, lock: &str, mark: &str) -> Option<String> {
    let mut path = String::new(alloc);
    add_mark(&mut path, lock, mark)?;
    Some(path)
}

/// The path of the file whose lock file this is.
pub(crate) fn old_path(alloc: Global, lock: &str) -> Option<String> {
    let name = lock.strip_suffix(".crsreg")?;
    let (folder, name) = match name.rsplit_once('/') {
        Some((folder, name)) => (Some(folder), name),
        None => (None, name),
    };
    let name = name.strip_prefix('.')?;
    match folder {
        Some(folder) => format!(in alloc; "{folder}/{name}").ok(),
        None => String::from_str(alloc, name).ok(),
    }
}

// The word that a file of the system has.
fn word_in(alloc: Global, rt: &HostRuntime, path: &str) -> Result<String, AllocError> {
    let mut block = [0; LONGEST];
    let line = match fs::open(rt, path) {
        Ok(mut file) => line_in(&mut file, &mut block),
        Err(_) => None,
    };
    let word = line.unwrap_or(UNKNOWN).trim();
    if word.is_empty() || word.len() > WORD || word.contains(' ') {
        return String::from_str(alloc, UNKNOWN);
    }
    String::from_str(alloc, word)
}

/// What a short file has.
pub(crate) fn line_in<'a, F: Read>(file: &mut F, block: &'a mut [u8; LONGEST]) -> Option<&'a str> {
    let mut len = 0usize;
    for _ in 0..LONGEST {
        if len >= LONGEST {
            return None;
        }
        match file.read(&mut block[len..]) {
            Ok(0) => break,
            Ok(n) => len = len.saturating_add(n).min(LONGEST),
            Err(error) if error.kind() == ErrorKind::Interrupted => {}
            Err(_) => return None,
        }
    }
    let end = len.min(LONGEST);
    str::from_utf8(&block[..end]).ok()
}

// A mark that no other process has, of random bytes.
fn mark(alloc: Global, rt: &HostRuntime) -> Result<String, AllocError> {
    let mut mark = String::new(alloc);
    let mut random = [0; 8];
    if rt.fill_bytes(&mut random).is_err() {
        return Ok(mark);
    }
    for byte in random {
        mark.push(digit(byte >> 4))?;
        mark.push(digit(byte & 15))?;
    }
    Ok(mark)
}

fn digit(value: u8) -> char {
    char::from_digit(u32::from(value), 16).unwrap_or('0')
}
