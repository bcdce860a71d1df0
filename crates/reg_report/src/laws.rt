//! The laws of reports. The functions do nothing: their contracts are the laws.

ghost use Rattle.std.specs.Prelude.{◌≡◌, ◌↔◌, ◌++◌, ℕ, List, [], ◌∷◌, Contains, true, false};
ghost use Rattle.csv.specs.Writing.{row_text, default_writer};
ghost use Rattle.crs_value.specs.declared.crs.Crs.{Crs};
ghost use Rattle.reg_op.specs.Definition.{IsCrsOf};
ghost use Rattle.reg_op.specs.Set as set;
ghost use Rattle.reg_op.specs.Ids.{Id};
ghost use Rattle.reg_op.specs.Operations.{Ops, kept};
ghost use Rattle.reg_op.specs.Kept.{entering};
ghost use Rattle.reg_op.specs.Rows.{Row, rows};
ghost use Rattle.reg_op.specs.Contents.{Content, IsContent};
ghost use Rattle.reg_op.specs.Status.{enters};
ghost use Rattle.reg_report.specs.Conflicts.{Contested, AreConflicts};
ghost use Rattle.reg_report.specs.Lines.{entries_header, IsEntryLine};
ghost use Rattle.reg_report.specs.declared.writing.ReportKind.TheVariants.{Entries, Conflicts, Awaited, Gaps};
ghost use Rattle.reg_report.specs.Reports.{IsReport, IsOpsReport, rows_of, IsEntryReport};

/// Pruning does not change the keys in conflict, and there is one list of them.
pub fn conflicts_of_kept()
    ensures conflicts { (s : Ops) (cs : List Contested) → AreConflicts (rows (kept s)) cs ↔ AreConflicts (rows s) cs }
    ensures one { (s : Ops) (cs ds : List Contested) → AreConflicts (rows s) cs → AreConflicts (rows s) ds → cs ≡ ds }
{}

/// A content has at most one report of each kind, and at most one of its operations.
pub fn one_report()
    ensures entries { (x : Content) (text other : List ℕ) → IsReport Entries x text → IsReport Entries x other → text ≡ other }
    ensures conflicts { (x : Content) (text other : List ℕ) → IsReport Conflicts x text → IsReport Conflicts x other → text ≡ other }
    ensures awaited { (x : Content) (text other : List ℕ) → IsReport Awaited x text → IsReport Awaited x other → text ≡ other }
    ensures gaps { (x : Content) (text other : List ℕ) → IsReport Gaps x text → IsReport Gaps x other → text ≡ other }
    ensures operations { (x : Content) (text other : List ℕ) → IsOpsReport x text → IsOpsReport x other → text ≡ other }
{}

/// An entry has one row and one line, any other id has none, and there is at most one report of an entry.
pub fn one_line()
    ensures row { (x : Content) (entry : Id) → IsContent x → enters x.ops entry ≡ true → (r : Row) × (rows_of entry x ≡ r ∷ []) × (r.entry ≡ entry) }
    ensures no_row { (x : Content) (entry : Id) → enters x.ops entry ≡ false → rows_of entry x ≡ [] }
    ensures line { (x : Content) (entry : Id) (r : Row) (text : List ℕ) → rows_of entry x ≡ r ∷ [] → IsEntryReport entry x text
        → (fields : List (List ℕ)) × IsEntryLine r fields × (text ≡ row_text default_writer entries_header ++ row_text default_writer fields) }
    ensures report { (x : Content) (entry : Id) (text other : List ℕ) → IsEntryReport entry x text → IsEntryReport entry x other → text ≡ other }
{}

/// The text of each row is the one that was entered; an export writes it if the entry is not retired. It is the
/// canonical text of a value, and spells that value.
pub fn texts_are_read()
    ensures entered { (x : Content) (r : Row) → Contains (rows x.ops) r → (note : List ℕ) × (set.contains x.ops (entering r.entry r.definition note) ≡ true) }
    ensures spelled { (x : Content) (r : Row) → IsContent x → Contains (rows x.ops) r → (crs : Crs) × IsCrsOf crs r.definition }
{}
