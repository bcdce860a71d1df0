//! What a system in memory knows of its names, files and locks, as lists of entries. A later entry counts before earlier ones.

ghost use Rattle.std.specs.Prelude.{◌≡◌, ◌++◌, None, [], ℕ, List, OnOk, OnErr, ◌==◌, bytes_eq, if◌then◌else◌};
ghost use Rattle.byte_system.specs.Disk.{named, numbered, released};
ghost use Rattle.byte_system.specs.Entries.{name_step, name_from, bytes_from, lock_step, holder_from, may_lock, is_file};

use std::alloc::{AllocError, Global};

/// A name has a file from now on, or none; or one name was given the file of another.
#[derive(Drop)]
pub(crate) enum Name {
    Set(Vec<u8>, Option<usize>),
    Moved(Vec<u8>, Vec<u8>, Option<usize>),
}

/// A file has these bytes from now on.
#[derive(Drop)]
pub(crate) struct Held {
    pub(crate) file: usize,
    pub(crate) bytes: Vec<u8>,
}

/// A file is locked by a process; or a process has ended.
#[derive(Clone, Copy, Drop)]
pub(crate) enum Lock {
    Taken(usize, usize),
    Ended(usize),
}

fn after_name(found: Option<usize>, name: &Name, path: &[u8]) -> Option<usize>
    ensures { result ≡ name_step found name.now path.now }
{
    match name {
        Name::Set(with, file) => {
            if path == with.as_slice() {
                return *file;
            }
            found
        }
        Name::Moved(from, to, file) => {
            if path == from.as_slice() {
                return None;
            }
            if path == to.as_slice() {
                return *file;
            }
            found
        }
    }
}

/// The file with a name.
pub(crate) fn file_named(names: &[Name], path: &[u8]) -> Option<usize>
    ensures { result ≡ name_from None names.now path.now }
{
    let mut found = None;
    let mut rest = names;
    while let Some((name, others)) = rest.split_first() {
        found = after_name(found, name, path);
        rest = others;
    }
    found
}

/// The bytes of a file.
pub(crate) fn bytes_of(held: &[Held], file: usize) -> &[u8]
    ensures { result.now ≡ bytes_from [] held.now file }
{
    let mut found: &[u8] = &[];
    let mut rest = held;
    while let Some((one, others)) = rest.split_first() {
        if file == one.file {
            found = &one.bytes;
        }
        rest = others;
    }
    found
}

fn after_lock(found: Option<usize>, lock: Lock, file: usize) -> Option<usize>
    ensures { result ≡ lock_step found lock file }
{
    match lock {
        Lock::Taken(taken, by) => {
            if file == taken {
                return Some(by);
            }
            found
        }
        Lock::Ended(by) => match found {
            None => None,
            Some(holder) => {
                if holder == by {
                    return None;
                }
                Some(holder)
            }
        },
    }
}

/// The process that has the lock of a file.
pub(crate) fn holder_of(locks: &[Lock], file: usize) -> Option<usize>
    ensures { result ≡ holder_from None locks.now file }
{
    let mut found = None;
    let mut rest = locks;
    while let Some((lock, others)) = rest.split_first() {
        found = after_lock(found, *lock, file);
        rest = others;
    }
    found
}

/// Whether a process may lock a file with this holder.
pub(crate) fn may_lock(holder: Option<usize>, by: usize) -> bool
    ensures { result ≡ may_lock holder by }
{
    match holder {
        None => true,
        Some(holder) => holder == by,
    }
}

/// Whether the file that a name has is this one.
pub(crate) fn is_file(found: Option<usize>, file: usize) -> bool
    ensures { result ≡ is_file found file }
{
    match found {
        None => false,
        Some(found) => found == file,
    }
}

/// Gives a name a file, or takes it away.
pub(crate) fn set_name(
    alloc: Global,
    names: &mut Vec<Name>,
    path: &[u8],
    file: Option<usize>,
) -> Result<(), AllocError>
    ensures ok { OnOk result ((p : List ℕ) → name_from None names.new.items p ≡ named (name_from None names.old.items) path.now file p) }
    ensures err { OnErr result (names.new.items ≡ names.old.items) }
{
    let path = path.to_vec(alloc)?;
    if let Err(_) = names.push(Name::Set(path, file)) {
        return Err(AllocError);
    }
    Ok(())
}

/// Gives the file of one name another name.
pub(crate) fn move_name(
    alloc: Global,
    names: &mut Vec<Name>,
    from: &[u8],
    to: &[u8],
    file: Option<usize>,
) -> Result<(), AllocError>
    ensures ok { OnOk result ((p : List ℕ) → name_from None names.new.items p ≡ named (named (name_from None names.old.items) to.now file) from.now None p) }
    ensures err { OnErr result (names.new.items ≡ names.old.items) }
{
    let from = from.to_vec(alloc)?;
    let to = to.to_vec(alloc)?;
    if let Err(_) = names.push(Name::Moved(from, to, file)) {
        return Err(AllocError);
    }
    Ok(())
}

/// Appends bytes to those of a file.
pub(crate) fn append(
    alloc: Global,
    held: &mut Vec<Held>,
    file: usize,
    bytes: &[u8],
) -> Result<(), AllocError>
    ensures ok { OnOk result ((i : ℕ) → bytes_from [] held.new.items i ≡ numbered (bytes_from [] held.old.items) file (bytes_from [] held.old.items file ++ bytes.now) i) }
    ensures err { OnErr result (held.new.items ≡ held.old.items) }
{
    let mut all = bytes_of(held, file).to_vec(alloc)?;
    all.extend_from_slice(bytes)?;
    if let Err(_) = held.push(Held { file, bytes: all }) {
        return Err(AllocError);
    }
    Ok(())
}

/// Adds an entry about locks.
pub(crate) fn set_lock(locks: &mut Vec<Lock>, lock: Lock) -> Result<(), AllocError>
    ensures ok { OnOk result ((i : ℕ) → holder_from None locks.new.items i ≡ lock_step (holder_from None locks.old.items i) lock i) }
    ensures err { OnErr result (locks.new.items ≡ locks.old.items) }
{
    if let Err(_) = locks.push(lock) {
        return Err(AllocError);
    }
    Ok(())
}
