//! The counts of each office: seen ids and kept operations.

ghost use Rattle.std.specs.Prelude.{◌≡◌, IfOk};
ghost use Rattle.reg_query.specs.Offices.{IsOffice, AreOffices};

use crate::figures::counting::{count_of, missing_of};
use crate::figures::replicas::replicas_of;
use reg_state::Register;
use std::alloc::{AllocError, Global};
use uuid::Uuid;

/// The counts of an office.
#[derive(Clone, Copy, Debug, PartialEq, Eq)]
pub struct OfficeFigures {
    pub replica: Uuid,
    /// The greatest count that was seen.
    pub greatest: u32,
    /// The number of counts below it that were not seen.
    pub missing: u32,
    /// The number of its operations that are kept.
    pub kept: usize,
}

/// The offices with a seen id, ordered by replica.
pub fn offices(alloc: Global, register: &Register) -> Result<Vec<OfficeFigures>, AllocError>
    ensures { IfOk result (λ made. AreOffices register.now made.items) }
{
    let replicas = replicas_of(alloc, register.seen().runs())?;
    let mut made = Vec::new(alloc);
    for replica in &replicas {
        made.push(office_of(register, *replica))?;
    }
    Ok(made)
}

fn office_of(register: &Register, replica: Uuid) -> OfficeFigures
    ensures office { IsOffice register.now result }
    ensures replica { result.replica ≡ replica }
{
    let seen = register.seen();
    let greatest = seen.greatest(replica);
    let missing = missing_of(seen.runs(), replica, greatest);
    let kept = count_of(register.ops().as_slice(), replica);
    OfficeFigures {
        replica,
        greatest,
        missing,
        kept,
    }
}
