//! Commands whose effects are known before anything is made.

ghost use Rattle.std.specs.Prelude.{◌≡◌, ◌∷◌, [], IfOk};
ghost use Rattle.reg_op.specs.declared.operation.OpBody.TheVariants as body;
ghost use Rattle.reg_office.specs.Commands.{retirements, supersessions};

use crate::{Enter, Retire, Supersede};
use byte_io::Source;
use reg_engine::Change;
use reg_op::{OpBody, OpId};
use std::alloc::{AllocError, Global};
use wkt_crs::Definition;

/// A command whose effects are known once it has read what it needs.
pub trait Effects: Change {
    ghost use Rattle.std.specs.Prelude.{◌≡◌, ℕ, List, IfOk};
    ghost use Rattle.reg_op.specs.declared.operation.OpBody.{OpBody as Body};

    /// The effects, in order.
    ghost effects: { Self → Self.Read → List Body };

    /// The note of the operations.
    ghost note: { Self → List ℕ };

    fn effects(&self, alloc: Global, read: &Self::Read) -> Result<Vec<OpBody>, AllocError>
        ensures { IfOk result (λ made. made.items ≡ effects self.now read.now) };

    fn note(&self) -> &str
        ensures { result.now ≡ note self.now };
}

impl Effects for Retire<'_> {
    ghost use Rattle.reg_office.specs.Commands.{retirements};

    ghost effects = { λ c. λ r. retirements c.entries.now };

    ghost note = { λ c. c.note.now };

    fn effects(&self, alloc: Global, _read: &()) -> Result<Vec<OpBody>, AllocError> {
        retirements(alloc, self.entries)
    }

    fn note(&self) -> &str {
        self.note
    }
}

impl Effects for Supersede<'_> {
    ghost use Rattle.reg_office.specs.Commands.{supersessions};

    ghost effects = { λ c. λ r. supersessions c.old c.newer.now };

    ghost note = { λ c. c.note.now };

    fn effects(&self, alloc: Global, _read: &()) -> Result<Vec<OpBody>, AllocError> {
        supersessions(alloc, self.old, self.newer)
    }

    fn note(&self) -> &str {
        self.note
    }
}

impl<X: Source> Effects for Enter<'_, X> {
    ghost use Rattle.std.specs.Prelude.{◌∷◌, []};
    ghost use Rattle.reg_op.specs.declared.operation.OpBody.TheVariants as body;

    ghost effects = { λ c. λ r. body.Enter r ∷ [] };

    ghost note = { λ c. c.note.now };

    fn effects(&self, alloc: Global, read: &Definition) -> Result<Vec<OpBody>, AllocError> {
        entering(alloc, read)
    }

    fn note(&self) -> &str {
        self.note
    }
}

/// The retirement of each entry.
pub fn retirements(alloc: Global, entries: &[OpId]) -> Result<Vec<OpBody>, AllocError>
    ensures { IfOk result (λ made. made.items ≡ retirements entries.now) }
{
    let mut made = Vec::new(alloc);
    for entry in entries {
        made.push(OpBody::Retire { entry: *entry })?;
    }
    Ok(made)
}

/// The supersession of the old entry by each newer one.
pub fn supersessions(alloc: Global, old: OpId, newer: &[OpId]) -> Result<Vec<OpBody>, AllocError>
    ensures { IfOk result (λ made. made.items ≡ supersessions old newer.now) }
{
    let mut made = Vec::new(alloc);
    for entry in newer {
        made.push(OpBody::Supersede { old, newer: *entry })?;
    }
    Ok(made)
}

// The entering of a definition.
fn entering(alloc: Global, definition: &Definition) -> Result<Vec<OpBody>, AllocError>
    ensures { IfOk result (λ made. made.items ≡ (body.Enter definition.now ∷ [])) }
{
    let mut made = Vec::new(alloc);
    made.push(OpBody::Enter(definition.try_clone(alloc)?))?;
    Ok(made)
}
