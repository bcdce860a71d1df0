//! The calls by which a place looks at the old file, puts its new file in place, or removes it.

ghost use Rattle.std.specs.Prelude.{◌≡◌, ◌∷◌, OnOk, OnErr, IfOk, IfErr};
ghost use Rattle.byte_system.specs.Disk.{Finds};
ghost use Rattle.byte_system.specs.System.{GoesOn, calls};
ghost use Rattle.byte_protocol.specs.Replacing.{Asks};
ghost use Rattle.byte_place.specs.Steps.{Clears, Unrenamed, Visits, renamed, told_of};

use crate::progress::ReserveFault;
use byte_out::MakeFault;
use byte_protocol::Fault;
use byte_system::{Failed, Mode, System, There};

/// Why no new file was made, as places tell it.
pub(crate) fn make_fault(fault: ReserveFault) -> MakeFault {
    match fault {
        ReserveFault::Exists => MakeFault::Exists,
        ReserveFault::NotOpened => MakeFault::NotOpened,
    }
}

/// Why there is no new file.
pub(crate) fn reserve_fault(fault: Fault) -> ReserveFault
    ensures { result ≡ told_of fault }
{
    match fault {
        Fault::NewExists => ReserveFault::Exists,
        Fault::NotMade => ReserveFault::NotOpened,
        Fault::NotWritten(_) => ReserveFault::NotOpened,
        Fault::NotSure => ReserveFault::NotOpened,
        Fault::NotRead => ReserveFault::NotOpened,
        Fault::Changed => ReserveFault::NotOpened,
        Fault::NotLooked => ReserveFault::NotOpened,
        Fault::Lost => ReserveFault::NotOpened,
        Fault::NotPut => ReserveFault::NotOpened,
        Fault::NotSynced => ReserveFault::NotOpened,
    }
}

/// Until the new file is opened to the same people as an old one, only its owner can open it.
pub(crate) fn mode_for(is_there: bool) -> Mode {
    if is_there {
        return Mode::Private;
    }
    Mode::Usual
}

/// Whether there is an old file. It has to be a plain file that opens for writing, as if it were written where it is.
pub(crate) fn visit<S: System>(system: &mut S, out: &[u8]) -> Result<bool, Failed>
    ensures goes { GoesOn (S.state system.old) (S.state system.new) }
    ensures visits { Visits out.now (calls (S.state system.old)) (calls (S.state system.new)) }
{
    match find(system, out) {
        Ok(true) => {}
        Ok(false) => return Ok(false),
        Err(_) => return Err(Failed),
    }
    match system.open(out) {
        Ok(_) => Ok(true),
        Err(_) => Err(Failed),
    }
}

// Whether there is a plain file.
fn find<S: System>(system: &mut S, out: &[u8]) -> Result<bool, Failed>
    ensures goes { GoesOn (S.state system.old) (S.state system.new) }
    ensures ok { IfOk result (λ b. calls (S.state system.new) ≡ Finds out.now b ∷ calls (S.state system.old)) }
    ensures err { OnErr result (Asks out.now (calls (S.state system.old)) (calls (S.state system.new))) }
{
    match system.look(out) {
        Ok(There::Nothing) => Ok(false),
        Ok(There::Sole) => Ok(true),
        Ok(There::Shared) => Ok(true),
        Ok(There::Other) => Err(Failed),
        Err(_) => Err(Failed),
    }
}

/// Why a new file was not put in the place of the old one.
#[derive(Clone, Copy, Debug, PartialEq, Eq)]
pub(crate) enum Unput {
    /// Its name leads to another file.
    Lost,
    /// The rename failed, and there is no old file any more: the new one is the only one.
    Gone,
    NotPut,
}

/// Renames the new file, if its name still leads to it. After a rename that failed the old one is looked for.
pub(crate) fn put_own<S: System>(
    system: &mut S,
    file: usize,
    out: &[u8],
    new: &[u8],
) -> Result<(), Unput>
    ensures goes { GoesOn (S.state system.old) (S.state system.new) }
    ensures ok { OnOk result (calls (S.state system.new) ≡ renamed out.now new.now file (calls (S.state system.old))) }
    ensures fault { IfErr result (λ e. Unrenamed e out.now new.now file (calls (S.state system.old)) (calls (S.state system.new))) }
{
    match system.is_named(new, file) {
        Ok(true) => {}
        Ok(false) => return Err(Unput::Lost),
        Err(_) => return Err(Unput::NotPut),
    }
    if system.rename(new, out).is_ok() {
        return Ok(());
    }
    match system.look(out) {
        Ok(There::Nothing) => Err(Unput::Gone),
        Ok(There::Sole) => Err(Unput::NotPut),
        Ok(There::Shared) => Err(Unput::NotPut),
        Ok(There::Other) => Err(Unput::NotPut),
        Err(_) => Err(Unput::NotPut),
    }
}

/// Removes the new file, if its name still leads to it.
pub(crate) fn remove_own<S: System>(system: &mut S, file: usize, new: &[u8])
    ensures goes { GoesOn (S.state system.old) (S.state system.new) }
    ensures clears { Clears new.now file (calls (S.state system.old)) (calls (S.state system.new)) }
{
    match system.is_named(new, file) {
        Ok(true) => {}
        Ok(false) => return,
        Err(_) => return,
    }
    let _ = system.unlink(new);
}
