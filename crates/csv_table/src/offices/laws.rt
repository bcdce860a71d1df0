//! The laws of names. The functions do nothing: their contracts are the laws.

ghost use Rattle.std.specs.Prelude.{◌≡◌, ℕ, List, Bool, []};
ghost use Rattle.csv_table.specs.Shown.{shown};

/// Without names, each text is shown as it is.
#[tactic(auto, using(crate::proofs::ShownLemmas::unnamed))]
pub fn nothing_is_named()
    ensures { (keeps : Bool) (text : List ℕ) → shown keeps [] text ≡ text }
{}
