//! The law of texts. The function does nothing: its contract is the law.

ghost use Rattle.std.specs.Prelude.{◌≡◌, ◌↔◌, ℕ, List};
ghost use Rattle.reg_op.specs.Contents.{Content};
ghost use Rattle.reg_op.specs.Rows.{rows};
ghost use Rattle.reg_texts.specs.Said.{Said, Says};
ghost use Rattle.reg_texts.specs.Texts.{IsTextsOf};

/// Registers that make the same statements have the same listing. The statements are a set of keys, texts, statuses, and keys of
/// successors: they do not say who entered a text, or when.
pub fn texts_are_what_is_said()
    ensures { (x y : Content) (t u : List ℕ) → ((s : Said) → Says (rows x.ops) s ↔ Says (rows y.ops) s) → IsTextsOf x t → IsTextsOf y u → t ≡ u }
{}
