//! Retirements of entries for others that stay.

ghost use Rattle.std.specs.Prelude.{◌≡◌, ◌++◌, ◌⊎◌, IfOk, OnOk, IfErr};
ghost use Rattle.reg_office.specs.declared.fault.OfficeFault.TheVariants as fault;
ghost use Rattle.reg_disorder.specs.Retiring.{RetiresFor, CannotRetireFor};

use crate::linking::link::links;
use crate::linking::passing::pass_on;
use reg_office::{Office, OfficeFault};
use reg_op::OpId;
use reg_state::Register;
use std::alloc::{AllocError, Global};
use uuid::Uuid;

/// A register after a command, and the ids of the operations that the command made.
#[derive(Drop)]
pub struct Retired {
    pub register: Register,
    pub ids: Vec<OpId>,
}

// Appends ids.
fn append(ids: &mut Vec<OpId>, more: &[OpId]) -> Result<(), AllocError>
    ensures { OnOk result (ids.new.items ≡ ids.old.items ++ more.now) }
{
    ids.extend_from_slice(more)?;
    Ok(())
}

/// Retires entries, as the replica and with the note, and then makes the links that pass on.
pub fn retire_for_heirs(
    alloc: Global,
    register: Register,
    replica: Uuid,
    entries: &[OpId],
    note: &str,
) -> Result<Retired, OfficeFault>
    ensures done { IfOk result (λ r. RetiresFor register replica note.now entries.now r.register r.ids.items) }
    ensures fault { IfErr result (λ f. CannotRetireFor register replica note.now entries.now f ⊎ (f ≡ fault.Memory)) }
{
    let Ok(before) = links(alloc, &register) else {
        return Err(OfficeFault::Memory);
    };
    let mut office = Office::new(replica, register);
    let mut ids = match office.retire(alloc, entries, note) {
        Ok(ids) => ids,
        Err(fault) => return Err(fault),
    };
    let passed = match pass_on(alloc, &mut office, &before, note) {
        Ok(passed) => passed,
        Err(fault) => return Err(fault),
    };
    if let Err(_) = append(&mut ids, &passed.ids) {
        return Err(OfficeFault::Memory);
    }
    Ok(Retired {
        register: office.into_register(),
        ids,
    })
}
