//! The laws of the page of a register. The functions do nothing: their contracts are the laws.

ghost use Rattle.std.specs.Prelude.{◌≡◌, ◌↔◌, ◌<◌, ◌++◌, ℕ, All, List, [], map, Contains, Some, None, Ok, true};
ghost use Rattle.std.specs.List.Sorted.{IsPermutation, IsSorted};
ghost use Rattle.html_page.specs.Pieces.{html};
ghost use Rattle.html_page.specs.Places.{Content as BetweenTags, tags, past_all};
ghost use Rattle.html_page.specs.Read.{read_of};
ghost use Rattle.html_page.specs.Said.{said};
ghost use Rattle.html_page.specs.Shape.{shape};
ghost use Rattle.html_page.specs.Shown.{Entry, Pair, Conflict, Shown};
ghost use Rattle.html_page.specs.Templates.{page};
ghost use Rattle.html_page.specs.Texts.{texts, shown_texts};
ghost use Rattle.html_page.specs.Words.{joined as all_of};
ghost use Rattle.crs_sense.specs.declared.rule.Rule.{Rule};
ghost use Rattle.reg_op.specs.Set as set;
ghost use Rattle.reg_op.specs.Ids.{Id};
ghost use Rattle.reg_op.specs.Operations.{Op};
ghost use Rattle.reg_op.specs.Contents.{Content, IsContent, joined};
ghost use Rattle.reg_op.specs.Rows.{IsInConflict, rows};
ghost use Rattle.reg_op.specs.Text.{printed};
ghost use Rattle.reg_report.specs.Conflicts.{KeyBytes, HasKey, Stands, Contested, AreConflicts};
ghost use Rattle.reg_page.specs.Descriptions.{entry_ids};
ghost use Rattle.reg_page.specs.Codes.{is_number, number_of, code_cmp};
ghost use Rattle.reg_page.specs.Rows.{ShowsEntry, entry_cmp, IsToldIn};
ghost use Rattle.reg_page.specs.Pairs.{paired, contested, IsPaired};
ghost use Rattle.reg_page.specs.Page.{named, IsShown, IsPage, IsSide};
ghost use Rattle.csv_table.specs.declared.offices.names.Name.{Name};
ghost use Rattle.std.specs.declared.cmp.Ordering.TheVariants.{Less};

use csv_table::offices::laws::nothing_is_named;

/// A register has one page with a title and names of offices. So registers with the same operations and seen ids have the same page,
/// and both orders of a merge do.
pub fn one_page()
    ensures content { (rules : List Rule) (title : List ℕ) (names : List Name) (x : Content) (a b : List ℕ) → IsContent x → IsPage rules title names x a → IsPage rules title names x b → a ≡ b }
    ensures replicas { (rules : List Rule) (title : List ℕ) (names : List Name) (x y : Content) (a b : List ℕ) → IsContent x → ((o : Op) → set.contains x.ops o ≡ set.contains y.ops o)
        → ((i : Id) → set.contains x.seen i ≡ set.contains y.seen i) → IsPage rules title names x a → IsPage rules title names y b → a ≡ b }
    ensures merges { (rules : List Rule) (title : List ℕ) (names : List Name) (x y z w : Content) (a b : List ℕ) → IsContent x → IsContent y → joined x y ≡ Ok z → joined y x ≡ Ok w
        → IsPage rules title names z a → IsPage rules title names w b → a ≡ b }
{}

/// A page is the list of pieces that shows the register. In it each text is between tags, or in an id or a link within the page,
/// and none is in a style or a script. The tags of two pages of one shape are the same, whatever texts their registers have, and
/// whatever the names of offices are.
pub fn no_text_leaves_its_place()
    ensures places { (rules : List Rule) (title : List ℕ) (names : List Name) (x : Content) (bytes : List ℕ) (p : IsPage rules title names x bytes) → (bytes ≡ html (page (named names) p.shows))
        × (past_all (Some BetweenTags) (page (named names) p.shows) ≡ Some BetweenTags) }
    ensures tags { (rules also : List Rule) (title other : List ℕ) (names many : List Name) (x y : Content) (bytes others : List ℕ) (p : IsPage rules title names x bytes) (q : IsPage also other many y others)
        → shape p.shows ≡ shape q.shows → tags bytes ≡ tags others }
{}

/// Without names of offices, each id is read as it is.
pub fn ids_without_names()
    ensures { (s : Shown) → page (named []) s ≡ page (λ id. id) s }
{
    nothing_is_named();
}

/// The rows of the page are those of the register's entries: each entry has one, among those that are not retired or those that are.
pub fn each_entry_has_one_row()
    ensures { (rules : List Rule) (title : List ℕ) (x : Content) (s : Shown) → IsShown rules title x s
        → IsPermutation (map printed (entry_ids x.ops)) (map (λ (e : Entry). e.id) (s.entries ++ s.retired)) }
{}

/// The texts of the page are those of the register, in order. Each row shows an entry: its status, and the key, the name, the boxes and
/// the indented text of the reference system that the definition spells. The rows are in the order of their keys. What a page has of texts
/// is the words of the sides of its conflicts, and then the texts of its rows. What is read of it is what is said of all this.
pub fn texts_are_in_order()
    ensures rows { (rules : List Rule) (title : List ℕ) (x : Content) (s : Shown) → IsShown rules title x s → All (ShowsEntry rules x.ops) s.entries × All (ShowsEntry rules x.ops) s.retired }
    ensures sorted { (rules : List Rule) (title : List ℕ) (x : Content) (s : Shown) → IsShown rules title x s → IsSorted entry_cmp s.entries × IsSorted entry_cmp s.retired }
    ensures page { (rules : List Rule) (title : List ℕ) (names : List Name) (x : Content) (bytes : List ℕ) (p : IsPage rules title names x bytes) → (bytes ≡ html (page (named names) p.shows))
        × (texts (page (named names) p.shows) ≡ shown_texts p.shows) }
    ensures read { (rules : List Rule) (title : List ℕ) (names : List Name) (x : Content) (bytes : List ℕ) (p : IsPage rules title names x bytes)
        → read_of bytes ≡ all_of (said (named names) p.shows) }
{}

/// The conflicts of the page are those of the register's report, in order: each key has each of its entries beside the next one. So
/// each entry of a key in conflict that is not retired is in a pair.
pub fn contested_entries_are_in_pairs()
    ensures pairs { (rules : List Rule) (title : List ℕ) (x : Content) (s : Shown) → IsShown rules title x s → (cs : List Contested) × AreConflicts (rows x.ops) cs
        × (map paired s.conflicts ≡ map contested cs) }
    ensures each { (rules : List Rule) (title : List ℕ) (x : Content) (s : Shown) → IsContent x → IsShown rules title x s → (k : KeyBytes) → IsInConflict HasKey (rows x.ops) k
        → (entry : Id) → Stands (rows x.ops) k entry → IsPaired s k entry }
{}

/// Each side of a conflict is an entry of the page: its words, without their marks, are the text in the entry's row.
pub fn words_are_texts()
    ensures { (rules : List Rule) (title : List ℕ) (x : Content) (s : Shown) → IsShown rules title x s → (c : Conflict) → Contains s.conflicts c → (p : Pair) → Contains c.pairs p
        → IsSide s p.first × IsSide s p.second }
{}

/// Each row of an entry that is not retired has its text. The row of a retired entry has its text exactly if no such row of its key has
/// the same one, and else a link to one that has it.
pub fn each_text_is_in_a_row()
    ensures own { (rules : List Rule) (title : List ℕ) (x : Content) (s : Shown) → IsShown rules title x s → All (λ (e : Entry). e.same_text_as ≡ None) s.entries }
    ensures linked { (rules : List Rule) (title : List ℕ) (x : Content) (s : Shown) → IsShown rules title x s → All (λ (e : Entry). IsToldIn s.entries e e.same_text_as) s.retired }
{}

/// The row of an entry that is not retired says that it is in conflict exactly if its key is.
pub fn rows_say_conflicts()
    ensures { (rules : List Rule) (title : List ℕ) (x : Content) (s : Shown) → IsShown rules title x s
        → All (λ (e : Entry). (e.in_conflict ≡ true) ↔ IsInConflict HasKey (rows x.ops) (record { authority = e.authority; code = e.code })) s.entries }
{}

/// Codes of digits are in the order of the numbers that they write.
pub fn numbers_are_in_order()
    ensures { (a b : List ℕ) → is_number a ≡ true → is_number b ≡ true → number_of a < number_of b → code_cmp a b ≡ Less }
{}
