//! The laws of rows. The functions do nothing: their contracts are the laws.

ghost use Rattle.std.specs.Prelude.{◌≡◌, ◌↔◌, ℕ, List, map, Contains, IsSome, IsTrue};
ghost use Rattle.crs_sense.specs.declared.rule.Rule.{Rule};
ghost use Rattle.wkt_crs.specs.Definition.{IsCrsOf};
ghost use Rattle.reg_op.specs.Contents.{Content};
ghost use Rattle.reg_lint.specs.declared.rule.AnyRule.{AnyRule};
ghost use Rattle.reg_lint.specs.declared.rule.TheConstants.{ANY_RULES};
ghost use Rattle.reg_lint.specs.AnyRules.{any_name, any_listed, ascend};
ghost use Rattle.reg_lint.specs.Details.{detail_of, details};
ghost use Rattle.reg_lint.specs.Subjects.{Subject, AreLiveIn};
ghost use Rattle.reg_lint.specs.Laws.{HaveSameTexts, HaveSameTextsAsOften, Tells, HasRow, HasRowBy, live_texts};

/// There is a row of a rule about one system with a key exactly if the text of an entry that is not retired has the key and breaks the rule.
pub fn rows_are_of_live_texts()
    ensures { (x : Content) (ss : List Subject) → AreLiveIn x ss → (rule : Rule) (authority code : List ℕ) → HasRow ss rule authority code ↔ Tells x rule authority code }
{}

/// So registers with the same live texts have rows of the same rules with the same keys.
pub fn same_texts_have_the_same_rows()
    ensures { (x y : Content) (ss ts : List Subject) → HaveSameTexts x y → AreLiveIn x ss → AreLiveIn y ts → (rule : Rule) (authority code : List ℕ) → HasRow ss rule authority code ↔ HasRow ts rule authority code }
{}

/// By each rule, registers whose live texts are the same, in the same order of ids, have the same sentences about the same texts.
pub fn same_order_has_the_same_sentences()
    ensures { (x y : Content) (ss ts : List Subject) → live_texts x ≡ live_texts y → AreLiveIn x ss → AreLiveIn y ts → (rule : AnyRule) → details rule ss ≡ details rule ts }
{}

/// By each rule, in registers with the same live texts, each as often and in any order of ids, the same texts break the rule. The sentence may name another entry.
pub fn same_texts_break_the_same_rules()
    ensures { (x y : Content) (ss ts : List Subject) → HaveSameTextsAsOften x y → AreLiveIn x ss → AreLiveIn y ts → (rule : AnyRule) (text : List ℕ) (s t : Subject) → IsCrsOf s.crs text → IsCrsOf t.crs text → IsSome (detail_of rule ss s) ↔ IsSome (detail_of rule ts t) }
{}

/// So they have rows of the same rules with the same keys.
pub fn same_texts_have_the_same_rows_by_every_rule()
    ensures { (x y : Content) (ss ts : List Subject) → HaveSameTextsAsOften x y → AreLiveIn x ss → AreLiveIn y ts → (rule : AnyRule) (authority code : List ℕ) → HasRowBy ss rule authority code ↔ HasRowBy ts rule authority code }
{}

/// Each rule is one of those that are listed, in the order of their names.
pub fn all_rules_are_listed()
    ensures listed { ANY_RULES ≡ any_listed }
    ensures each { (rule : AnyRule) → Contains any_listed rule }
    ensures by_name { IsTrue (ascend (map any_name any_listed)) }
{}
