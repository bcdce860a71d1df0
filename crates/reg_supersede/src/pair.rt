//! Pairs of an old entry and one that supersedes it.

ghost use Rattle.std.specs.Prelude.{◌≡◌, ◌++◌, map, IfOk, OnOk};
ghost use Rattle.reg_supersede.specs.Lists.{pair_of, pairs_of};

use reg_op::OpId;
use std::alloc::{AllocError, Global};

/// An old entry, and one that supersedes it.
#[derive(Clone, Copy, PartialEq, Eq, PartialOrd, Ord)]
pub struct Pair {
    pub old: OpId,
    pub newer: OpId,
}

fn push_pairs(pairs: &mut Vec<Pair>, old: OpId, newer: &[OpId]) -> Result<(), AllocError>
    ensures { OnOk result (pairs.new.items ≡ pairs.old.items ++ map (pair_of old) newer.now) }
{
    for newer in newer {
        pairs.push(Pair { old, newer: *newer })?;
    }
    Ok(())
}

/// Each old entry with each that supersedes it.
pub fn pairs_of(alloc: Global, olds: &[OpId], newer: &[OpId]) -> Result<Vec<Pair>, AllocError>
    ensures { IfOk result (λ pairs. pairs.items ≡ pairs_of olds.now newer.now) }
{
    let mut pairs = Vec::new(alloc);
    for old in olds {
        push_pairs(&mut pairs, *old, newer)?;
    }
    Ok(pairs)
}
