//! The command `export --into`.

ghost use Rattle.std.specs.Prelude.{IfOk, IfErr, map, OnOk};
ghost use Rattle.byte_folder.specs.Folder.{seen};
ghost use Rattle.byte_folder.specs.Put.{Puts};
ghost use Rattle.reg_export.specs.Stopped.{CannotHand};
ghost use Rattle.reg_export.specs.IntoFiles.{HandsFiles};
ghost use Rattle.reg_export.specs.Into.{IsPutInto, IsNotPutInto, IsNotOut};

use crate::choice::{Choice, found_for};
use crate::into_rows::{Handed, LeftOutOfFolder, files_of_found};
use byte_folder::{FolderFault, FolderPlace, NamedFile, put_folder};
use reg_engine::{CliFault, OutFault, Store};
use reg_state::Register;
use std::alloc::Global;

// The files of the chosen entries.
fn handed(
    alloc: Global,
    register: &Register,
    choice: &Choice<'_>,
    keep_going: bool,
) -> Result<Handed, CliFault>
    ensures ok { IfOk result (λ made. HandsFiles choice.now keep_going made.left register.now (map seen made.files.items)) }
    ensures fault { IfErr result (CannotHand choice.now keep_going register.now) }
{
    let found = match found_for(alloc, register, choice) {
        Ok(found) => found,
        Err(_) => return Err(CliFault::Memory),
    };
    match files_of_found(alloc, &found, keep_going) {
        Ok(made) => Ok(made),
        Err(fault) => Err(fault),
    }
}

fn put_files<F: FolderPlace>(place: &mut F, files: &[NamedFile]) -> Result<(), CliFault>
    ensures ok { OnOk result (Puts (map seen files.now) (F.state place.old) (F.state place.new)) }
    ensures fault { IfErr result (IsNotOut (map seen files.now) (F.state place.old) (F.state place.new)) }
{
    match put_folder(place, files) {
        Ok(()) => Ok(()),
        Err(FolderFault::NotOpened) => Err(CliFault::Out(OutFault::NotOpened)),
        Err(FolderFault::NewExists) => Err(CliFault::Out(OutFault::NewExists)),
        Err(FolderFault::WriteFailed(n)) => Err(CliFault::Out(OutFault::WriteFailed(n))),
    }
}

/// Loads the register, and puts a folder in place with a file for each key of the chosen entries. With `keep_going`, keys with two
/// texts are left out, and keys whose files would have names that are too long. The answer names them.
pub fn run_into<T: Store, F: FolderPlace>(
    alloc: Global,
    store: &mut T,
    choice: &Choice<'_>,
    keep_going: bool,
    place: &mut F,
) -> Result<LeftOutOfFolder, CliFault>
    ensures same { T.same store.old store.new }
    ensures put { IfOk result (λ left. IsPutInto (T.around store.old store.new) (HandsFiles choice.now keep_going left) (F.state place.old) (F.state place.new)) }
    ensures fault { IfErr result (IsNotPutInto (T.around store.old store.new) choice.now keep_going (F.state place.old) (F.state place.new)) }
{
    let register = match store.load(alloc) {
        Ok(register) => register,
        Err(fault) => return Err(fault),
    };
    let Handed { files, left } = match handed(alloc, &register, choice, keep_going) {
        Ok(handed) => handed,
        Err(fault) => return Err(fault),
    };
    match put_files(place, &files) {
        Ok(()) => Ok(left),
        Err(fault) => Err(fault),
    }
}
