//! Whether an id is an entry, and whether the entry is retired.

ghost use Rattle.std.specs.Prelude.{◌≡◌, true};
ghost use Rattle.reg_op.specs.Status.{enters, retires};

use reg_op::{OpId, Status};
use reg_state::Register;

/// Whether the register has such an entry.
pub fn is_entered(register: &Register, entry: OpId) -> bool
    ensures { result ≡ enters register.now.ops entry }
{
    register.status(entry).is_some()
}

/// Whether the entry is retired.
pub fn is_retired(register: &Register, entry: OpId) -> bool
    ensures { enters register.now.ops entry ≡ true → result ≡ retires register.now.ops entry }
{
    register.status(entry) == Some(Status::Retired)
}
