//! Whether two registers are the same.

ghost use Rattle.std.specs.Prelude.{◌≡◌, ◌↔◌, IsTrue};

use reg_op::Op;
use reg_state::{Register, Seen};

fn is_same_op(left: &Op, right: &Op) -> bool
    ensures { IsTrue result ↔ (left.now ≡ right.now) }
{
    left.is_same(right)
}

fn are_same_ops(left: &[Op], right: &[Op]) -> bool
    ensures { IsTrue result ↔ (left.now ≡ right.now) }
{
    let mut lefts = left;
    let mut rights = right;
    while let (Some((one, lefter)), Some((other, righter))) = (
        lefts.split_first(),
        rights.split_first(),
    ) {
        if !is_same_op(one, other) {
            return false;
        }
        lefts = lefter;
        rights = righter;
    }
    lefts.is_empty() && rights.is_empty()
}

fn are_same_ids(left: &Seen, right: &Seen) -> bool
    ensures { IsTrue result ↔ (left.now ≡ right.now) }
{
    left.first_outside(right).is_none() && right.first_outside(left).is_none()
}

/// Whether they have the same operations and the same seen ids.
pub fn is_same(left: &Register, right: &Register) -> bool
    ensures { IsTrue result ↔ (left.now ≡ right.now) }
{
    are_same_ops(left.ops().as_slice(), right.ops().as_slice())
        && are_same_ids(left.seen(), right.seen())
}
