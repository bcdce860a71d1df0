//! Whether keys with two texts may be left out.

ghost use Rattle.std.specs.Prelude.{◌≡◌, false, None, OnOk, IfErr};
ghost use Rattle.reg_export.specs.Stopped.{IsStopped};

use reg_engine::{CliFault, Refusal};
use reg_op::OpId;

/// Refuses a key with two texts, unless it may be left out.
pub fn pass(keep_going: bool, taken: Option<OpId>) -> Result<(), CliFault>
    ensures ok { OnOk result (keep_going ≡ false → taken ≡ None) }
    ensures fault { IfErr result (IsStopped keep_going taken) }
{
    if keep_going {
        return Ok(());
    }
    match taken {
        Some(id) => Err(CliFault::Refused(Refusal::KeyTaken(id))),
        None => Ok(()),
    }
}
