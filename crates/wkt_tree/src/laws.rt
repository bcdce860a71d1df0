//! The laws of texts.

ghost use Rattle.std.specs.Prelude.{◌≡◌, List, ℕ, All};
ghost use Rattle.wkt_tree.specs.declared.fault.TextFault.{TextFault};
ghost use Rattle.wkt_tree.specs.Cursor.{IsSoundToken};
ghost use Rattle.wkt_tree.specs.Tree.{Tok, Item, tokens};
ghost use Rattle.wkt_tree.specs.Tokens.{Cut};
ghost use Rattle.wkt_tree.specs.Faults.{FirstFault, IsOutline};

/// A text that has a fault is not written with the tokens of a tree.
pub fn fault_or_outline()
    ensures { (text : List ℕ) (ts : List Tok) (fault : TextFault) → FirstFault text fault → IsOutline text ts → ⊥ }
{}

/// A text has at most one first fault.
pub fn one_first_fault()
    ensures { (text : List ℕ) (one other : TextFault) → FirstFault text one → FirstFault text other → one ≡ other }
{}

/// A text has one list of tokens.
pub fn one_cut()
    ensures { (text : List ℕ) (ts us : List Tok) → Cut 0 text ts → Cut 0 text us → ts ≡ us }
{}

/// Tokens are those of at most one tree.
pub fn one_tree()
    ensures { (item other : Item) → tokens item ≡ tokens other → item ≡ other }
{}

/// The bytes of each token are what its kind says.
pub fn sound_tokens()
    ensures { (text : List ℕ) (ts : List Tok) → IsOutline text ts → All IsSoundToken ts }
{}
