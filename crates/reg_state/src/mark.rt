//! Marks and their targets.

ghost use Rattle.std.specs.Prelude.{◌≡◌};
ghost use Rattle.std.specs.Ordering.{is_lt};
ghost use Rattle.reg_state.specs.MarkSets.{covers, is_at, mark_cmp, target_cmp};

use reg_op::OpId;

/// The target of a mark: an entry that is retired, or superseded by another.
#[derive(Clone, Copy, Debug, PartialEq, Eq, PartialOrd, Ord)]
pub struct MarkTarget {
    pub entry: OpId,
    pub by: Option<OpId>,
}

/// A mark: an operation retires or supersedes its target.
#[derive(Clone, Copy, Debug, PartialEq, Eq, PartialOrd, Ord)]
pub struct Mark {
    pub target: MarkTarget,
    pub id: OpId,
}

pub(crate) fn is_at(mark: &Mark, target: &MarkTarget) -> bool
    ensures { result ≡ is_at target.now mark.now }
{
    mark.target.cmp(target).is_eq()
}

pub(crate) fn is_below(mark: &Mark, target: &MarkTarget) -> bool
    ensures { result ≡ is_lt (target_cmp mark.now.target target.now) }
{
    mark.target.cmp(target).is_lt()
}

/// Whether a mark at the target makes the other redundant, if it comes first.
pub(crate) fn covers(target: &MarkTarget, mark: &Mark) -> bool
    ensures { result ≡ covers target.now mark.now }
{
    if !target.entry.is_same(&mark.target.entry) {
        return false;
    }
    match (target.by, mark.target.by) {
        (None, _) => true,
        (Some(_), None) => false,
        (Some(newer), Some(other)) => newer.is_same(&other),
    }
}

pub(crate) fn comes_first(first: &Mark, second: &Mark) -> bool
    ensures { result ≡ is_lt (mark_cmp first.now second.now) }
{
    first.cmp(second).is_lt()
}
