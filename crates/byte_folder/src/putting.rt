//! Putting a folder in place as a whole.

ghost use Rattle.std.specs.Prelude.{◌≡◌, ◌<◌, ◌≤◌, ◌^◌, map, length, Err, OnOk, IfErr, MatchOption};
ghost use Rattle.std.specs.List.{list_any};
ghost use Rattle.byte_folder.specs.Folder.{seen, is_long, contents};
ghost use Rattle.byte_folder.specs.Put.{Puts, IsImpossible, IsTaken, HasNew, IsPutFault, Adds, IsAddFault};
ghost use Rattle.byte_folder.specs.declared.fault.FolderFault.TheVariants as outcome;

use crate::fault::{FolderFault, MakeFolderFault};
use crate::file::NamedFile;
use crate::place::FolderPlace;
use byte_io::PublishFault;

/// The greatest length of a file's name.
const MAX_NAME: usize = 255;

fn is_long(file: &NamedFile) -> bool
    ensures { result ≡ is_long (seen file.now) }
{
    MAX_NAME < file.name.len()
}

fn has_long_name(files: &[NamedFile]) -> bool
    ensures { result ≡ list_any is_long (map seen files.now) }
{
    let mut rest = files;
    while let Some((file, others)) = rest.split_first() {
        if is_long(file) {
            return true;
        }
        rest = others;
    }
    false
}

// The number of bytes in all files, if it is a number of 64 bits.
fn size_of(files: &[NamedFile]) -> Option<usize>
    ensures { MatchOption result (2 ^ 64 ≤ length (contents (map seen files.now))) (λ size. size ≡ length (contents (map seen files.now))) }
{
    let mut size = 0usize;
    let mut rest = files;
    while let Some((file, others)) = rest.split_first() {
        let Some(more) = size.checked_add(file.bytes.len()) else {
            return None;
        };
        size = more;
        rest = others;
    }
    Some(size)
}

// Adds the files, whose bytes can be counted.
fn add_files<P: FolderPlace>(place: &mut P, files: &[NamedFile]) -> Result<(), FolderFault>
    requires { length (contents (map seen files.now)) < 2 ^ 64 }
    ensures ok { OnOk result (Adds (map seen files.now) (P.state place.old) (P.state place.new)) }
    ensures fault { IfErr result (IsAddFault (map seen files.now) (P.state place.old) (P.state place.new)) }
{
    let mut written = 0usize;
    let mut rest = files;
    while let Some((file, others)) = rest.split_first() {
        match place.add(&file.name, &file.bytes) {
            Ok(()) => {}
            Err(PublishFault::NotOpened) => return Err(FolderFault::NotOpened),
            Err(PublishFault::WriteFailed(n)) => return Err(FolderFault::WriteFailed(written + n)),
        }
        written += file.bytes.len();
        rest = others;
    }
    Ok(())
}

/// Makes a folder with exactly these files, in their order, and puts it in place, if there is no folder with the name, or an
/// empty one. On failure, nothing is in place, and the new folder is removed.
pub fn put_folder<P: FolderPlace>(place: &mut P, files: &[NamedFile]) -> Result<(), FolderFault>
    ensures ok { OnOk result (Puts (map seen files.now) (P.state place.old) (P.state place.new)) }
    ensures fault { IfErr result (IsPutFault (map seen files.now) (P.state place.old) (P.state place.new)) }
    // Where no folder can have the files, where the name is taken, and where there is a new folder, this is always said.
    ensures impossible { IsImpossible (map seen files.now) → (result ≡ Err outcome.NotOpened) × (P.state place.new ≡ P.state place.old) }
    ensures taken { IsTaken (P.state place.old).folders → result ≡ Err outcome.NotOpened }
    ensures exists { ¬ (IsImpossible (map seen files.now)) → HasNew (P.state place.old).folders → result ≡ Err outcome.NewExists }
{
    if has_long_name(files) {
        return Err(FolderFault::NotOpened);
    }
    let Some(_) = size_of(files) else {
        return Err(FolderFault::NotOpened);
    };
    match place.make() {
        Ok(()) => {}
        Err(MakeFolderFault::NotOpened) => return Err(FolderFault::NotOpened),
        Err(MakeFolderFault::Exists) => return Err(FolderFault::NewExists),
    }
    if let Err(fault) = add_files(place, files) {
        place.remove();
        return Err(fault);
    }
    if place.put().is_err() {
        place.remove();
        return Err(FolderFault::NotOpened);
    }
    Ok(())
}
