//! The ids that a register has to have seen to join some pieces.

ghost use Rattle.std.specs.Prelude.{◌≡◌, ◌<◌, length, map, IfOk};
ghost use Rattle.reg_op.specs.Ids.{Ids};
ghost use Rattle.reg_op.specs.Pieces.{IsHeld, part_of};
ghost use Rattle.reg_op.specs.Set as set;
ghost use Rattle.reg_state.specs.ManyLaws.{all_seen};
ghost use Rattle.reg_tree.specs.Chain.{AllHeld};

use reg_op::joining::Join;
use reg_state::{Piece, Seen};
use std::alloc::{AllocError, Global};

/// What pieces need if they are joined one after another.
#[derive(Drop)]
pub struct Needs {
    /// The ids of their bases that no piece before brings.
    pub basis: Seen,
    /// The ids that they bring.
    pub seen: Seen,
}

/// All ids of both.
pub fn union(alloc: Global, one: &Seen, other: &Seen) -> Result<Seen, AllocError>
    ensures { IfOk result (λ both. both ≡ set.union one.now other.now) }
{
    match one.join(alloc, other) {
        Ok(both) => Ok(both),
        Err(_) => Err(AllocError),
    }
}

fn basis_of_both(alloc: Global, left: &Needs, right: &Needs) -> Result<Seen, AllocError>
    ensures { IfOk result (λ basis. basis ≡ set.union left.now.basis (set.difference right.now.basis left.now.seen)) }
{
    let later = right.basis.outside(alloc, &left.seen)?;
    union(alloc, &left.basis, &later)
}

/// What pieces need, found for each half first.
pub fn needs_of(alloc: Global, pieces: &[Piece]) -> Result<Needs, AllocError>
    ensures basis { IfOk result (λ needs. (seen : Ids) → IsHeld needs.basis seen → AllHeld pieces.now seen) }
    ensures seen { IfOk result (λ needs. needs.seen ≡ all_seen (map part_of pieces.now)) }
{
    if pieces.len() < 2 {
        return needs_of_few(alloc, pieces);
    }
    let (left, right) = pieces.split_at(pieces.len() / 2);
    let left = needs_of(alloc, left)?;
    let right = needs_of(alloc, right)?;
    let basis = basis_of_both(alloc, &left, &right)?;
    let seen = union(alloc, &left.seen, &right.seen)?;
    Ok(Needs { basis, seen })
}

// The same for one piece, or none.
fn needs_of_few(alloc: Global, pieces: &[Piece]) -> Result<Needs, AllocError>
    requires { length pieces.now < 2 }
    ensures basis { IfOk result (λ needs. (seen : Ids) → IsHeld needs.basis seen → AllHeld pieces.now seen) }
    ensures seen { IfOk result (λ needs. needs.seen ≡ all_seen (map part_of pieces.now)) }
{
    let Some((piece, _)) = pieces.split_first() else {
        return Ok(Needs {
            basis: Seen::new(alloc),
            seen: Seen::new(alloc),
        });
    };
    let basis = piece.basis().try_clone(alloc)?;
    let seen = piece.seen().try_clone(alloc)?;
    Ok(Needs { basis, seen })
}
