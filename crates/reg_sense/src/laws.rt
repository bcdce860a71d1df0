//! The law of the order of systems. The function does nothing: its contract is the law.

ghost use Rattle.std.specs.Prelude.{◌↔◌, ℕ, List, IsPermutation, IsSome};
ghost use Rattle.reg_sense.specs.declared.rule.WideRule.{WideRule};
ghost use Rattle.reg_sense.specs.Claimants.{Voice};
ghost use Rattle.reg_sense.specs.Laws.{HaveSameNames};
ghost use Rattle.reg_sense.specs.Rules.{wide_told};

/// A system breaks the same rules beside others in any order. The sentence may name another of them.
pub fn any_order_breaks_the_same_rules()
    ensures { (rule : WideRule) (ms ns : List (List ℕ)) (vs ws : List Voice) (v : Voice) → HaveSameNames ms ns → IsPermutation vs ws → IsSome (wide_told rule ms vs v) ↔ IsSome (wide_told rule ns ws v) }
{}
