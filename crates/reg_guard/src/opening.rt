//! Takes an office file before a command, so that no other command of the office goes on.

ghost use Rattle.std.specs.Prelude.{◌≡◌, IfOk, OnOk, IfErr};
ghost use Rattle.reg_engine.specs.declared.fault.CliFault.TheVariants as cli;
ghost use Rattle.reg_engine.specs.declared.fault.InputFault.TheVariants as file;
ghost use Rattle.reg_journal.specs.Text.{FindsOffice};
ghost use Rattle.reg_guard.specs.Opening.{Locks, IsUnlocked, IsUnfoundBy, open_fault};

use byte_io::Source;
use byte_out::{MakeFault, Place};
use reg_engine::{CliFault, InputFault};
use reg_journal::{OfficeFile, OpenFault, read_office};
use std::alloc::Global;

/// Makes the new office file, which keeps other commands of the office away.
pub fn lock_office<P: Place>(place: &mut P) -> Result<(), CliFault>
    ensures locked { OnOk result (Locks (P.state place.old) (P.state place.new)) }
    ensures fault { IfErr result (IsUnlocked (P.state place.old) (P.state place.new)) }
{
    match place.make() {
        Ok(()) => Ok(()),
        Err(MakeFault::Exists) => Err(busy()),
        Err(MakeFault::NotOpened) => Err(unopened()),
    }
}

/// Reads the office file, after its new file was made: otherwise two commands could read the same one.
pub fn office_in<S: Source>(alloc: Global, source: &mut S) -> Result<OfficeFile, CliFault>
    ensures found { IfOk result (FindsOffice (S.state source.old) (S.state source.new)) }
    ensures fault { IfErr result (IsUnfoundBy (S.state source.old) (S.state source.new)) }
{
    match read_office(alloc, source) {
        Ok(file) => Ok(file),
        Err(fault) => Err(fault_of(fault)),
    }
}

// The fault of reading the office file.
fn fault_of(fault: OpenFault) -> CliFault
    ensures { result ≡ open_fault fault }
{
    let fault = match fault {
        OpenFault::ReadFailed(n) => InputFault::ReadFailed(n),
        OpenFault::TooLarge => InputFault::TooLarge,
        OpenFault::NotOffice => InputFault::NotOffice,
        OpenFault::Memory => return CliFault::Memory,
    };
    CliFault::File { number: 1, fault }
}

/// The fault of an office file that another command has. It is file 1.
pub fn busy() -> CliFault
    ensures { result ≡ cli.File 1 file.Busy }
{
    CliFault::File {
        number: 1,
        fault: InputFault::Busy,
    }
}

/// The fault of an office file that does not open. It is file 1.
pub fn unopened() -> CliFault
    ensures { result ≡ cli.File 1 file.NotOpened }
{
    CliFault::File {
        number: 1,
        fault: InputFault::NotOpened,
    }
}
