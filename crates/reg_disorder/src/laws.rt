//! The laws of what is not in order. The functions do nothing: their contracts are the laws.

ghost use Rattle.std.specs.Prelude.{◌≡◌, ◌↔◌, ℕ, List};
ghost use Rattle.reg_op.specs.Operations.{Ops, kept};
ghost use Rattle.reg_op.specs.Rows.{Row, rows};
ghost use Rattle.reg_op.specs.Contents.{Content};
ghost use Rattle.reg_disorder.specs.declared.disorder.Disorder.{Disorder};
ghost use Rattle.reg_disorder.specs.Disorders.{Keyed, AreAmiss, CountsAmiss};
ghost use Rattle.reg_disorder.specs.Reports.{IsAmissText};
ghost use Rattle.reg_report.specs.Conflicts.{KeyBytes};
ghost use Rattle.reg_disorder.specs.declared.code.Standing.{Standing};
ghost use Rattle.reg_disorder.specs.Standings.{IsStanding};

/// Rows have one list, one count and one report of what is not in order in each way. So registers with the same operations
/// report the same.
pub fn one_report()
    ensures list { (way : Disorder) (rs : List Row) (ls ms : List Keyed) → AreAmiss way rs ls → AreAmiss way rs ms → ls ≡ ms }
    ensures count { (way : Disorder) (rs : List Row) (m n : ℕ) → CountsAmiss way rs m → CountsAmiss way rs n → m ≡ n }
    ensures text { (way : Disorder) (x : Content) (text other : List ℕ) → IsAmissText way x text → IsAmissText way x other → text ≡ other }
{}

/// Pruning does not change what is not in order.
pub fn pruning_keeps_disorder()
    ensures { (way : Disorder) (s : Ops) (ls : List Keyed) → AreAmiss way (rows (kept s)) ls ↔ AreAmiss way (rows s) ls }
{}

/// A key has at most one standing, and pruning does not change it.
pub fn one_standing()
    ensures one { (rs : List Row) (k : KeyBytes) (s t : Standing) → IsStanding s rs k → IsStanding t rs k → s ≡ t }
    ensures pruned { (x : Ops) (k : KeyBytes) (s : Standing) → IsStanding s (rows (kept x)) k ↔ IsStanding s (rows x) k }
{}
