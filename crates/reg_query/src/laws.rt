//! The laws of comparisons and of the log. The functions do nothing: their contracts are the laws.

ghost use Rattle.std.specs.Prelude.{◌≡◌, ◌↔◌, ℕ, true, List, []};
ghost use Rattle.std.specs.List.Sorted.{IsPermutation};
ghost use Rattle.reg_op.specs.Set as set;
ghost use Rattle.reg_op.specs.Operations.{Op, Ops};
ghost use Rattle.reg_op.specs.Contents.{Content, IsContent};
ghost use Rattle.reg_op.specs.Rows.{Row, rows};
ghost use Rattle.reg_query.specs.Changes.{Change, AreChanges};
ghost use Rattle.reg_query.specs.DiffLines.{IsDiff};
ghost use Rattle.reg_query.specs.Log.{AreLogged};

/// The rows of two contents are the same exactly if there are no changes between them.
pub fn diff_is_empty_where_equal()
    ensures { (x y : Content) → IsContent x → IsContent y → AreChanges (rows x.ops) (rows y.ops) [] ↔ (rows x.ops ≡ rows y.ops) }
{}

/// Two lists of rows have one list of changes, and two contents have one text of them.
pub fn one_diff()
    ensures changes { (old new : List Row) (cs ds : List Change) → AreChanges old new cs → AreChanges old new ds → cs ≡ ds }
    ensures text { (x y : Content) (text other : List ℕ) → IsDiff x y text → IsDiff x y other → text ≡ other }
{}

/// The log of all entries has the operations of the register, each once.
pub fn log_of_all()
    ensures { (s : Ops) (os : List Op) → AreLogged (λ e. true) s os → IsPermutation (set.items s) os }
{}
