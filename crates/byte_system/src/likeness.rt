//! Who may open a new file.

use std::fs::{Metadata, OpenFile, Permissions};
use std::io;
use std::os::fd::AsFd;
use std::os::unix::fs::{MetadataExt, PermissionsExt, fchown};

/// Gives the new file the owner, the group and the mode of the old one, as far as the system permits. A new owner is no fault. Where the
/// group cannot be kept, its permissions are dropped: the new group gets no more than everybody.
pub(crate) fn make_alike<F: OpenFile + AsFd>(file: &F, old: &Metadata) -> io::Result<()> {
    let made = file.metadata()?;
    if made.uid() != old.uid() || made.gid() != old.gid() {
        if fchown(file, Some(old.uid()), Some(old.gid())).is_err() {
            let _ = fchown(file, None, Some(old.gid()));
        }
    }
    let new = file.metadata()?;
    let mode = kept_mode(old.mode(), new.uid() == old.uid(), new.gid() == old.gid());
    file.set_permissions(Permissions::from_mode(mode))
}

// The mode of a new file whose old one has this mode, and may have had another owner or group.
fn kept_mode(mode: u32, keeps_owner: bool, keeps_group: bool) -> u32 {
    if !keeps_group {
        let others = mode & 0o7;
        return mode & 0o707 | (mode & others << 3);
    }
    if keeps_owner {
        mode & 0o7777
    } else {
        mode & 0o777
    }
}
