//! Ids in order: each once, and whether an id is among them.

ghost use Rattle.std.specs.Prelude.{◌≡◌, ◌↔◌, IsTrue};
ghost use Rattle.std.specs.List.{Contains};
ghost use Rattle.std.specs.List.Sorted.{IsSorted};
ghost use Rattle.reg_op.specs.Set as set;
ghost use Rattle.reg_op.specs.Ids.{id_cmp};

use reg_op::OpId;

/// The ids in order, each once.
pub fn distinct(ids: Vec<OpId>) -> Vec<OpId>
    ensures { result.items ≡ set.items (set.from_list {R = id_cmp} ids.items) }
{
    let mut made = ids;
    made.sort_unstable();
    made.dedup();
    made
}

/// Whether the id is in the list.
pub fn is_among(ids: &[OpId], id: OpId) -> bool
    requires { IsSorted id_cmp ids.now }
    ensures { IsTrue result ↔ Contains ids.now id }
{
    ids.binary_search(&id).is_ok()
}
