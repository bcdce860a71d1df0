//! How folders of the file system are made and removed. No contract describes the file system.

ghost use Rattle.std.specs.Prelude.{◌≡◌, [], take, length};

use crate::fault::MakeFolderFault;
use std::alloc::Global;
use std::fs::{self, Metadata, Permissions};
use std::io::{self, ErrorKind, Read};
use std::os::unix::fs::{MetadataExt, PermissionsExt};
use std::rt::Files;
use std::str;

/// The path without slashes at its end: after one, the new folder would have no name of its own.
pub(crate) fn without_slashes(path: &str) -> &str
    ensures start { result.now ≡ take (length result.now) path.now }
    ensures some { result.now ≡ [] → path.now ≡ [] }
{
    let trimmed = path.trim_end_matches('/');
    if trimmed.is_empty() { path } else { trimmed }
}

/// Makes the new folder next to the path, if there is none, and if the path has nothing or an empty folder, which it is as open as.
pub(crate) fn make_folder<R: Files>(
    rt: &R,
    path: &str,
    beside: &str,
) -> Result<(), MakeFolderFault> {
    if fs::symlink_metadata(rt, beside).is_ok() {
        return Err(MakeFolderFault::Exists);
    }
    if !is_free(rt, path) {
        return Err(MakeFolderFault::NotOpened);
    }
    let old = fs::symlink_metadata(rt, path).ok();
    let mode = if old.is_some() { 0o700 } else { 0o777 };
    match rt.create_dir_with_mode(beside, mode) {
        Ok(()) => {
            if let Some(old) = old {
                keep_mode(rt, beside, &old);
            }
            Ok(())
        }
        Err(error) if error.kind() == ErrorKind::AlreadyExists => Err(MakeFolderFault::Exists),
        Err(_) => Err(MakeFolderFault::NotOpened),
    }
}

// Gives the new folder the mode of the old one. A group that the old one does not have gets no rights.
fn keep_mode<R: Files>(rt: &R, beside: &str, old: &Metadata) {
    let keeps_group = match fs::symlink_metadata(rt, beside) {
        Ok(new) => new.gid() == old.gid(),
        Err(_) => false,
    };
    let bits = if keeps_group { 0o777 } else { 0o707 };
    let _ = fs::set_permissions(rt, beside, Permissions::from_mode(old.mode() & bits));
}

// Whether the path has nothing, or an empty folder. A link to a folder cannot be replaced by a folder.
fn is_free<R: Files>(rt: &R, path: &str) -> bool {
    match fs::symlink_metadata(rt, path) {
        Ok(there) => there.is_dir() && is_empty(rt, path).unwrap_or(false),
        Err(error) => error.kind() == ErrorKind::NotFound && !path.is_empty(),
    }
}

// Whether a folder has no names but its own and that of its parent.
fn is_empty<R: Files>(rt: &R, path: &str) -> io::Result<bool> {
    let mut names = rt.open_dir(path)?;
    let mut chunk = [0; 4096];
    for _ in 0..u64::MAX {
        let n = match names.read(&mut chunk) {
            Ok(n) => n,
            Err(error) if error.kind() == ErrorKind::Interrupted => continue,
            Err(error) => return Err(error),
        };
        if n == 0 {
            return Ok(true);
        }
        if n > chunk.len() || has_name(&chunk[..n]) {
            return Ok(false);
        }
    }
    Ok(false)
}

// Whether there is another name than `.` and `..`. A NUL ends each.
fn has_name(names: &[u8]) -> bool {
    for name in names.split(|byte| *byte == 0) {
        if !name.is_empty() && name != b".".as_slice() && name != b"..".as_slice() {
            return true;
        }
    }
    false
}

/// The path of the file with this name in a folder, if there is memory for it, and the name is a text.
pub(crate) fn path_in(alloc: Global, folder: &str, name: &[u8]) -> Option<String> {
    let Ok(name) = str::from_utf8(name) else {
        return None;
    };
    format!(in alloc; "{folder}/{name}").ok()
}

/// Removes the folder with its files, if that can be done.
pub(crate) fn remove_folder<R: Files>(alloc: Global, rt: &R, path: &str) {
    let _ = rt.remove_dir_all(alloc, path);
}
