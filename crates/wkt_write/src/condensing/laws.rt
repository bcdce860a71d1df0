//! The laws of condensed texts, and of trees that differ only in the spelling of numbers.

ghost use Rattle.std.specs.Prelude.{List, ℕ, ◌≤◌, length};
ghost use Rattle.crs_part.specs.declared.crs.CrsParts.{CrsParts};
ghost use Rattle.wkt_grammar.specs.Bare.{Bare};
ghost use Rattle.wkt_grammar.specs.Denotes.{DenotesParts};
ghost use Rattle.wkt_write.specs.Alike.{Alike};
ghost use Rattle.wkt_write.specs.Condensed.{IsCondensed};
ghost use Rattle.wkt_write.specs.CondensedLaw.{IsWrittenAs, IsReadAs};

/// Trees that differ only in the spelling of numbers denote the same value.
pub fn same_value()
    ensures { (x y : Bare) (v : CrsParts) → Alike x y → DenotesParts x v → DenotesParts y v }
{}

/// A text has the tokens of the condensed one, except for their places and the spelling of numbers.
pub fn same_tree()
    ensures { (text condensed : List ℕ) → length text ≤ 1048576 → IsCondensed text condensed → IsWrittenAs text condensed }
{}

/// Each value that the condensed text spells is a value that the text spells.
pub fn same_reading()
    ensures { (text condensed : List ℕ) → length text ≤ 1048576 → IsCondensed text condensed → IsReadAs text condensed }
{}
