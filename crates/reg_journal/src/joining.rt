//! A register with all that an office made.

ghost use Rattle.std.specs.Prelude.{◌≡◌, Ok, IfOk, IfErr};
ghost use Rattle.reg_op.specs.Contents.{joined};
ghost use Rattle.reg_op.specs.Finite.{any};
ghost use Rattle.reg_journal.specs.Standing.{behind, knows_office, names_own, Admits, IsHonest, IsUnadmitted, IsUncaught};

use crate::fault::AdmitFault;
use crate::forged::is_of;
use crate::office_file::OfficeFile;
use reg_office::last_count;
use reg_op::{Op, OpBody, OpId};
use reg_state::{Join, JoinFault, Register};
use std::alloc::{AllocError, Global};
use uuid::Uuid;

impl OfficeFile {
    /// The register on which a command of the office works: this one, joined with all that the office made. A register that is not
    /// the one in which the office works is refused first, then one of which somebody else gave a number in the office's name.
    pub fn admit(&self, alloc: Global, register: &Register) -> Result<Register, AdmitFault>
        ensures admitted { IfOk result (Admits self.now register.now) }
        ensures fault { IfErr result (IsUnadmitted self.now register.now) }
    {
        if let Some(id) = self.behind(register) {
            return Err(AdmitFault::Behind(id));
        }
        match self.catch_up(alloc, register) {
            Ok(all) => Ok(all),
            Err(fault) => Err(fault),
        }
    }

    /// The same for any register, also another one than that in which the office works.
    pub fn catch_up(&self, alloc: Global, register: &Register) -> Result<Register, AdmitFault>
        ensures caught { IfOk result (λ y. IsHonest self.now register.now × (joined register.now self.now.made ≡ Ok y)) }
        ensures fault { IfErr result (IsUncaught self.now register.now) }
    {
        if let Some(id) = self.forged(register) {
            return Err(AdmitFault::Forged(id));
        }
        match self.joined_to(alloc, register) {
            Ok(all) => Ok(all),
            Err(_) => Err(AdmitFault::Memory),
        }
    }

    /// The last number that the office gave, if a number of it stood in a register, and this one knows none.
    pub fn behind(&self, register: &Register) -> Option<OpId>
        ensures { result ≡ behind self.now register.now }
    {
        if self.stood == 0 || knows(register, self.replica) {
            return None;
        }
        OpId::new(self.replica, self.last)
    }

    // The register and all that the office made.
    fn joined_to(&self, alloc: Global, register: &Register) -> Result<Register, AllocError>
        requires { IsHonest self.now register.now }
        ensures { IfOk result (λ y. joined register.now self.now.made ≡ Ok y) }
    {
        let _content = register.seen();
        let _office = self.last();
        match register.join(alloc, self.made()) {
            Ok(joined) => Ok(joined),
            Err(JoinFault::Memory) => Err(AllocError),
            Err(JoinFault::Clash(_)) => unreachable!(),
        }
    }
}

// Whether the register has seen a number of the office, or names one.
fn knows(register: &Register, replica: Uuid) -> bool
    ensures { result ≡ knows_office replica register.now }
{
    last_count(register.seen(), replica) > 0 || is_named(register, replica)
}

// Whether an operation of the register names an id of the office.
fn is_named(register: &Register, replica: Uuid) -> bool
    ensures { result ≡ any (names_own replica) register.now.ops }
{
    register
        .ops()
        .as_slice()
        .iter()
        .any(|op| names(op, replica))
}

// Whether the operation names an id of the office.
fn names(op: &Op, replica: Uuid) -> bool
    ensures { result ≡ names_own replica op.now }
{
    match op.body() {
        OpBody::Enter(_) => false,
        OpBody::Supersede { old, newer } => is_of(*old, replica) || is_of(*newer, replica),
        OpBody::Retire { entry } => is_of(*entry, replica),
    }
}
