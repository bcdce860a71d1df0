//! Whether an id has two operations.

ghost use Rattle.std.specs.Prelude.{◌≡◌, ◌++◌, IfOk, OnOk};
ghost use Rattle.std.specs.Bool.{OnTrue};
ghost use Rattle.std.specs.List.Sorted.{IsPermutation};
ghost use Rattle.reg_tree.specs.Listed.{IsById, OneEach, ops_at};

use reg_op::Op;
use std::alloc::AllocError;

/// Appends the operations.
pub fn push_ops<'a>(made: &mut Vec<&'a Op>, ops: &'a [Op]) -> Result<(), AllocError>
    ensures { OnOk result (ops_at made.new.items ≡ ops_at made.old.items ++ ops.now) }
{
    for op in ops {
        made.push(op)?;
    }
    Ok(())
}

fn sort_by_id(ops: &mut Vec<&Op>) -> Result<(), AllocError>
    ensures permutation { IsPermutation ops.old.items ops.new.items }
    ensures sorted { OnOk result (IsById ops.new.items) }
{
    ops.sort_by_key(|op| op.id())?;
    Ok(())
}

// The same of operations that ascend by id.
fn neighbours_agree(ops: &[&Op]) -> bool
    requires { IsById ops.now }
    ensures { OnTrue result (OneEach (ops_at ops.now)) }
{
    for i in 1..ops.len() {
        if ops[i - 1].clashes(ops[i]) {
            return false;
        }
    }
    true
}

/// Whether no id has two of these operations.
pub fn agree(ops: Vec<&Op>) -> Result<bool, AllocError>
    ensures { IfOk result (λ agree. OnTrue agree (OneEach (ops_at ops.entry.items))) }
{
    let mut sorted = ops;
    sort_by_id(&mut sorted)?;
    Ok(neighbours_agree(&sorted))
}
