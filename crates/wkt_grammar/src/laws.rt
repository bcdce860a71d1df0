//! The laws of the table, and of its editions.

ghost use Rattle.std.specs.Prelude.{◌≡◌, ◌<◌, ◌++◌, ◌∷◌, ◌↔◌, [], List, ℕ, true, false, length, get_or, map, Some};
ghost use Rattle.wkt_grammar.specs.declared.table.Edition.{Edition};
ghost use Rattle.wkt_grammar.specs.declared.table.Edition.TheVariants as editions;
ghost use Rattle.wkt_grammar.specs.declared.table.Node.{Node};
ghost use Rattle.wkt_grammar.specs.declared.table.Node.TheVariants as nodes;
ghost use Rattle.wkt_grammar.specs.declared.table.Slot.{Slot};
ghost use Rattle.wkt_grammar.specs.declared.table.Keyword.{Keyword};
ghost use Rattle.wkt_grammar.specs.declared.table.Argument.{Argument};
ghost use Rattle.wkt_grammar.specs.declared.table.Argument.TheVariants as arguments;
ghost use Rattle.wkt_grammar.specs.Editions.{without_added};
ghost use Rattle.wkt_grammar.specs.Words.{IsKeyword, keyword_of};
ghost use Rattle.wkt_grammar.specs.Names.{slot_name};
ghost use Rattle.wkt_grammar.specs.RowNames.{names_in};
ghost use Rattle.wkt_grammar.specs.Ensembles.{needs_ellipsoid, takes_ellipsoid};
ghost use Rattle.wkt_tree.specs.Tree.{Tok};
ghost use Rattle.wkt_tree.specs.Tokens.{Cut};
ghost use Rattle.wkt_grammar.specs.Slots.{IsClean};
ghost use Rattle.wkt_grammar.specs.Rows.{Admitted, Fits, enters, row_in, row_of};

/// A word with a meaning as a keyword is, in any letter case, a spelling with this meaning, and of no other keyword.
pub fn keywords()
    ensures { (bytes : List ℕ) (k : Keyword) → (keyword_of bytes ≡ Some k) ↔ IsKeyword k bytes }
{}

/// The slots of each row have these names, which `Missing` prints.
pub fn names_of_rows()
    ensures { (e : Edition) (n : Node) → map (λ (s : Slot). slot_name s.name) (row_of e n) ≡ names_in e n }
{}

/// Each slot of a row that takes a keyword gives it the same row.
pub fn slot_decides()
    ensures { (e : Edition) (n m : Node) (i : ℕ) (d : Slot) (k : Keyword) → i < length (row_of e n) → enters (get_or (row_of e n) i d).takes k ≡ Some m → row_in (row_of e n) k ≡ Some m }
{}

/// Where a count can come and another number cannot, nothing but a count can come.
pub fn count_alone()
    ensures { (e : Edition) (n : Node) (before : List Argument) (a : Argument) → Admitted (row_of e n) (before ++ arguments.Count ∷ []) → (Admitted (row_of e n) (before ++ arguments.Number ∷ []) → ⊥) → Admitted (row_of e n) (before ++ a ∷ []) → a ≡ arguments.Count }
{}

/// Where a kind can come, nothing else can.
pub fn kind_alone()
    ensures { (e : Edition) (n : Node) (before : List Argument) (a : Argument) → Admitted (row_of e n) (before ++ arguments.CsKind ∷ []) → Admitted (row_of e n) (before ++ a ∷ []) → a ≡ arguments.CsKind }
{}

/// Where a direction can come, nothing else can.
pub fn direction_alone()
    ensures { (e : Edition) (n : Node) (before : List Argument) (a : Argument) → Admitted (row_of e n) (before ++ arguments.Direction ∷ []) → Admitted (row_of e n) (before ++ a ∷ []) → a ≡ arguments.Direction }
{}

/// A geodetic ensemble has its ellipsoid, and a vertical one has none.
pub fn ensembles()
    ensures geodetic { (e : Edition) → needs_ellipsoid (row_of e nodes.GeodeticEnsemble) ≡ true }
    ensures vertical { (e : Edition) → takes_ellipsoid (row_of e nodes.VerticalEnsemble) ≡ false }
{}

/// The rows of the first edition are those of the second without the slots that it adds.
pub fn without_the_added()
    ensures { (n : Node) → row_of editions.First n ≡ without_added (row_of editions.Second n) }
{}

/// Arguments that fit a row of the first edition fit that of the second.
pub fn still_fits()
    ensures { (n : Node) (args : List Argument) → Fits (row_of editions.First n) args → Fits (row_of editions.Second n) args }
{}

/// A text without a slot fault in the first edition has none in the second.
pub fn still_clean()
    ensures { (text : List ℕ) (toks : List Tok) → Cut 0 text toks → IsClean editions.First toks → IsClean editions.Second toks }
{}
