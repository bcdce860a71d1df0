//! The register on which a command of an office works: the one that was loaded, joined with all that the office made.

ghost use Rattle.std.specs.Prelude.{◌≡◌, IfOk, IfErr};
ghost use Rattle.reg_journal.specs.Standing.{Admits};
ghost use Rattle.reg_guard.specs.Admitting.{admit_fault, IsScreened};

use reg_engine::{CliFault, Refusal};
use reg_journal::{AdmitFault, OfficeFile};
use reg_state::Register;
use std::alloc::Global;

/// The register, joined with all that the office made, unless it is another one, or somebody else gave a number in its name.
pub(crate) fn admitted(
    alloc: Global,
    file: &OfficeFile,
    register: &Register,
) -> Result<Register, CliFault>
    ensures admitted { IfOk result (Admits file.now register.now) }
    ensures fault { IfErr result (IsScreened file.now register.now) }
{
    match file.admit(alloc, register) {
        Ok(register) => Ok(register),
        Err(fault) => Err(fault_of(fault)),
    }
}

fn fault_of(fault: AdmitFault) -> CliFault
    ensures { result ≡ admit_fault fault }
{
    match fault {
        AdmitFault::Behind(id) => CliFault::Refused(Refusal::Behind(id)),
        AdmitFault::Forged(id) => CliFault::Refused(Refusal::Forged(id)),
        AdmitFault::Memory => CliFault::Memory,
    }
}
