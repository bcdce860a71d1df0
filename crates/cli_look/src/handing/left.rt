//! The keys that an export left out.

ghost use Rattle.std.specs.Prelude.{◌≡◌, ◌++◌, [], IfOk, IfErr};
ghost use Rattle.cli_look.specs.LeftKeys.{long_key, taken_key, IsExported};

use cli_open::ending::{Done, NotDone, Outcome};
use reg_engine::CliFault;
use reg_export::LeftOutOfFolder;
use reg_op::OpId;
use std::alloc::Global;

/// A key that was left out.
#[derive(Clone, Copy)]
pub enum LeftKey {
    /// The name of the file of this entry would be too long.
    TooLong(OpId),
    /// This entry has the key, with another text.
    Taken(OpId),
}

/// How an export ended, and which keys it left out.
pub type Exported = Outcome<CliFault, LeftKey>;

/// An empty list with room for the keys that an export leaves out, which is made before anything is exported.
pub fn room_for_left(alloc: Global) -> Result<Vec<LeftKey>, CliFault>
    ensures { IfOk result (λ room. room.items ≡ []) }
{
    let mut room = Vec::new(alloc);
    if room.reserve(2).is_err() {
        return Err(CliFault::Memory);
    }
    Ok(room)
}

// Adds the entry whose file would have a name that is too long, if there is one.
fn with_long(left: Vec<LeftKey>, id: Option<OpId>) -> Result<Vec<LeftKey>, CliFault>
    ensures ok { IfOk result (λ keys. keys.items ≡ left.items ++ long_key id) }
    ensures fault { IfErr result (λ f. f ≡ CliFault.Memory) }
{
    let mut keys = left;
    let Some(id) = id else {
        return Ok(keys);
    };
    match keys.push(LeftKey::TooLong(id)) {
        Ok(()) => Ok(keys),
        Err(_) => Err(CliFault::Memory),
    }
}

// Adds the entry of a key with two texts, if there is one.
fn with_taken(left: Vec<LeftKey>, id: Option<OpId>) -> Result<Vec<LeftKey>, CliFault>
    ensures ok { IfOk result (λ keys. keys.items ≡ left.items ++ taken_key id) }
    ensures fault { IfErr result (λ f. f ≡ CliFault.Memory) }
{
    let mut keys = left;
    let Some(id) = id else {
        return Ok(keys);
    };
    match keys.push(LeftKey::Taken(id)) {
        Ok(()) => Ok(keys),
        Err(_) => Err(CliFault::Memory),
    }
}

/// The outcome of an export that is done.
pub fn left_out(room: Vec<LeftKey>, keys: &LeftOutOfFolder) -> Exported
    ensures { IsExported room.items keys.now result }
{
    let left = match with_long(room, keys.long) {
        Ok(left) => left,
        Err(fault) => return Err(NotDone::Fault(fault)),
    };
    let left = match with_taken(left, keys.taken) {
        Ok(left) => left,
        Err(fault) => return Err(NotDone::Fault(fault)),
    };
    Ok(Done {
        left,
        differs: false,
        brought: (),
    })
}
