//! The laws of explanations.

ghost use Rattle.std.specs.Prelude.{◌≡◌, ◌<◌, ◌≤◌, ◌+◌, ◌-◌, ℕ, List, min, is_some};
ghost use Rattle.std.specs.List.{list_any};
ghost use Rattle.wkt_tree.specs.Tree.{Tok, Begins};
ghost use Rattle.wkt_tree.specs.Tokens.{Cut};
ghost use Rattle.wkt_explain.specs.Path.{path_at};
ghost use Rattle.wkt_explain.specs.Shown.{shown_before};
ghost use Rattle.wkt_explain.specs.Opened.{opened_by_all};
ghost use Rattle.wkt_explain.specs.Wanted.{admitted};
ghost use Rattle.wkt_grammar.specs.declared.table.Keyword.{Keyword};
ghost use Rattle.wkt_grammar.specs.declared.table.Takes.{Takes};
ghost use Rattle.wkt_grammar.specs.Words.{same_keyword};
ghost use Rattle.wkt_grammar.specs.Rows.{enters};

/// After tokens that begin a tree, the path is the list of keywords of the nodes that the tokens open and do not close.
pub fn path_of_tokens()
    ensures { (text : List ℕ) (ts : List Tok) (n : ℕ) → Cut 0 text ts → Begins n ts → path_at text ≡ opened_by_all ts }
{}

/// The place is among the 80 characters that are shown, and so are the 40 characters from it on, if the line is that
/// long. A line that fits is shown completely.
pub fn place_is_shown()
    ensures room { (before after : ℕ) → shown_before before after < 80 }
    ensures ahead { (before after : ℕ) → min after 40 ≤ 80 - shown_before before after }
    ensures whole { (before after : ℕ) → before < 80 → before + after ≤ 80 → shown_before before after ≡ before }
{}

/// The sentence for an argument that does not fit a slot names exactly the keywords whose nodes the grammar takes there.
pub fn names_what_is_taken()
    ensures { (t : Takes) (k : Keyword) → list_any (λ own. same_keyword own k) (admitted t) ≡ is_some (enters t k) }
{}
