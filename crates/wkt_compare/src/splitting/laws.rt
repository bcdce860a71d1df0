//! The laws of texts in files.

ghost use Rattle.std.specs.Prelude.{◌≡◌, List, ℕ, All};
ghost use Rattle.wkt_tree.specs.Tree.{Piece};
ghost use Rattle.wkt_compare.specs.Texts.{IsCutInto};
ghost use Rattle.wkt_compare.specs.Printed.{IsCanonical, printed, AreFound};

/// Each file is split into some texts.
pub fn each_cut()
    ensures { (file : List ℕ) → (texts : List Piece) × IsCutInto file texts }
{}

/// A file is split into texts in at most one way.
pub fn one_cut()
    ensures { (file : List ℕ) (texts others : List Piece) → IsCutInto file texts → IsCutInto file others → texts ≡ others }
{}

/// Canonical texts that are written one after another, each with a newline, are split into the same texts.
pub fn written_are_found()
    ensures { (texts : List (List ℕ)) → All IsCanonical texts → AreFound (printed texts) texts }
{}
