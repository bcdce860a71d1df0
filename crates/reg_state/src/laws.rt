//! The laws of registers. The functions do nothing: their contracts are the laws.

ghost use Rattle.std.specs.Prelude.{◌≡◌, List, map, Ok};
ghost use Rattle.reg_op.specs.Set as set;
ghost use Rattle.reg_op.specs.Operations.{Op, Ops, OneBody, op_cmp};
ghost use Rattle.reg_op.specs.Contents.{Content, state, nothing, joined};
ghost use Rattle.reg_op.specs.Lists.{ById};
ghost use Rattle.reg_op.specs.Joining.{all_joined};
ghost use Rattle.reg_state.specs.declared.run.Run.{Run};
ghost use Rattle.reg_state.specs.Runs.{AreRuns, seen_of};
ghost use Rattle.reg_state.specs.ManyLaws.{all_ops, all_of, merged_all};

/// Contents that together have one body for each id join to the pruned union of their operations, with all their ids, in
/// any order and with repeats. The contents of sets of operations join to that of the union.
pub fn join_of_many()
    ensures contents { (xs : List Content) → OneBody (all_ops xs) → all_joined joined (Ok nothing) xs ≡ Ok (merged_all xs) }
    ensures states { (ss : List Ops) → OneBody (all_of ss) → all_joined joined (Ok nothing) (map state ss) ≡ Ok (state (all_of ss)) }
{}

/// Equal contents have equal lists of operations and of seen runs.
pub fn one_list_a_content()
    ensures ops { (os ps : List Op) → ById os → ById ps → set.from_list {R = op_cmp} os ≡ set.from_list ps → os ≡ ps }
    ensures runs { (rs ss : List Run) → AreRuns rs → AreRuns ss → seen_of rs ≡ seen_of ss → rs ≡ ss }
{}
