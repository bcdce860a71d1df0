//! The laws of escaping, of pieces and of the page. The functions do nothing: their contracts are the laws.

ghost use Rattle.std.specs.Prelude.{◌≡◌, ℕ, List, map, Some, true};
ghost use Rattle.std.specs.Str.{IsUtf8};
ghost use Rattle.std.specs.List.{flat_map};
ghost use Rattle.text_hidden.specs.Marks.{hides_only};
ghost use Rattle.html_page.specs.declared.marks.Feeds.{Feeds};
ghost use Rattle.html_page.specs.Escaped.{escaped, unescaped, is_inert};
ghost use Rattle.html_page.specs.Marks.{is_kept, marked, has_none};
ghost use Rattle.html_page.specs.Pieces.{Piece, html, blank};
ghost use Rattle.html_page.specs.Places.{Context, Content, tags, past_all, begins_no_tag};
ghost use Rattle.html_page.specs.Read.{read_of};
ghost use Rattle.html_page.specs.Said.{said};
ghost use Rattle.html_page.specs.declared.script.TheConstants.{SCRIPT};
ghost use Rattle.html_page.specs.declared.style.TheConstants.{STYLE};
ghost use Rattle.html_page.specs.Shown.{Word, Shown};
ghost use Rattle.html_page.specs.Shape.{shape};
ghost use Rattle.html_page.specs.Templates.{page};
ghost use Rattle.html_page.specs.Texts.{texts, shown_texts};
ghost use Rattle.html_page.specs.Words.{compared, joined, unmarked};

/// An escaped text has no `<`, `>` or quotation mark, and `&` only in references; a browser reads it as the text.
pub fn texts_stay_texts()
    ensures inert { (text : List ℕ) → is_inert (escaped text) ≡ true }
    ensures read { (text : List ℕ) → unescaped (escaped text) ≡ text }
{}

/// A text without hidden characters has no marks.
pub fn nothing_else_is_marked()
    ensures { (feeds : Feeds) (text : List ℕ) → has_none feeds text ≡ true → marked feeds text ≡ text }
{}

/// A marked text has no hidden character, so nothing is hidden in what a page shows: none begins at one of its bytes, and none is among
/// its characters, but line feeds that are kept.
pub fn nothing_hidden_is_shown()
    ensures bytes { (feeds : Feeds) (text : List ℕ) → has_none feeds (marked feeds text) ≡ true }
    ensures characters { (feeds : Feeds) (text : List ℕ) → IsUtf8 text → hides_only (λ c. is_kept feeds c) (marked feeds text) ≡ true }
{}

/// If each text of a page stands between tags or in quotation marks, the tags of the page are those of the page
/// without its texts.
pub fn tags_are_of_markup()
    ensures { (pieces : List Piece) (last : Context) → past_all (Some Content) pieces ≡ Some last → tags (html pieces) ≡ tags (html (map blank pieces)) }
{}

/// Each text is between tags, or in an id or a link within the page, and none is in a style or a script. So the tags of the page
/// depend only on the shape of the page, on no text in it, and not on what is read in the place of an id.
pub fn no_text_leaves_its_place()
    ensures places { (named : List ℕ → List ℕ) (s : Shown) → past_all (Some Content) (page named s) ≡ Some Content }
    ensures tags { (named other : List ℕ → List ℕ) (s : Shown) → tags (html (page named s)) ≡ tags (html (page other (shape s))) }
{}

/// The texts of the page are those of its content, in order: the words of each side of a conflict, and then the text of each row,
/// which its questions follow.
pub fn texts_are_in_order()
    ensures { (named : List ℕ → List ℕ) (s : Shown) → texts (page named s) ≡ shown_texts s }
{}

/// What is read of a page, between its tags and in the elements that are shown, is what its content says, in words that the definition
/// writes out: of each row the key, the name, the latitudes and longitudes, the text, the history and the word for the status.
pub fn all_is_said()
    ensures { (named : List ℕ → List ℕ) (s : Shown) → read_of (html (page named s)) ≡ joined (said named s) }
{}

/// The style and the script have no `<`, so that no tag begins in them.
pub fn style_and_script_have_no_tag()
    ensures style { begins_no_tag STYLE.now ≡ true }
    ensures script { begins_no_tag SCRIPT.now ≡ true }
{}

/// The words of a text without their marks are the text.
pub fn words_are_the_text()
    ensures { (text other : List ℕ) → flat_map (λ (w : Word). w.text) (compared text other) ≡ text }
{}

/// The words that are not marked are the same on both sides.
pub fn the_rest_is_common()
    ensures { (text other : List ℕ) → unmarked text other ≡ unmarked other text }
{}
