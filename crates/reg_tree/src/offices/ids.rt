//! The ids of some operations.

ghost use Rattle.std.specs.Prelude.{◌≡◌, [], ◌∷◌, map, IfOk};
ghost use Rattle.reg_op.specs.Set as set;
ghost use Rattle.reg_op.specs.Operations.{Op as Operation};

use reg_op::joining::Join;
use reg_op::{Op, OpId};
use reg_state::{Run, Seen};
use std::alloc::{AllocError, Global};

// The id as the only one.
fn one_id(alloc: Global, id: OpId) -> Result<Seen, AllocError>
    ensures { IfOk result (λ seen. seen ≡ set.from_list (id ∷ [])) }
{
    let mut seen = Seen::new(alloc);
    seen.add_run(Run {
        replica: id.replica(),
        low: id.count(),
        high: id.count(),
    })?;
    Ok(seen)
}

fn union(alloc: Global, one: &Seen, other: &Seen) -> Result<Seen, AllocError>
    ensures { IfOk result (λ both. both ≡ set.union one.now other.now) }
{
    match one.join(alloc, other) {
        Ok(both) => Ok(both),
        Err(_) => Err(AllocError),
    }
}

/// The ids of the operations, found for each half first.
pub(crate) fn ids_of(alloc: Global, ops: &[Op]) -> Result<Seen, AllocError>
    ensures { IfOk result (λ seen. seen ≡ set.from_list (map (λ (o : Operation). o.id) ops.now)) }
{
    if ops.len() < 2 {
        let Some((op, _)) = ops.split_first() else {
            return Ok(Seen::new(alloc));
        };
        return one_id(alloc, op.id());
    }
    let (left, right) = ops.split_at(ops.len() / 2);
    let left = ids_of(alloc, left)?;
    let right = ids_of(alloc, right)?;
    union(alloc, &left, &right)
}
