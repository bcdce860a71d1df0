//! What other programs read of a register, and the names of files for keys. The functions do nothing: their contracts are the laws.

ghost use Rattle.std.specs.Prelude.{◌≡◌, ◌≢◌, ◌++◌, ◌<◌, ℕ, Bool, List, [], true, All, Contains, Some, codes, map};
ghost use Rattle.std.specs.List.{list_all};
ghost use Rattle.std.specs.List.Sorted.{IsStrictlySortedBy};
ghost use Rattle.byte_folder.specs.Folder.{File};
ghost use Rattle.json.specs.Json.{document};
ghost use Rattle.crs_export.specs.SqlStatements as sql_text;
ghost use Rattle.crs_export.specs.DotStatements as graph_text;
ghost use Rattle.crs_export.specs.declared.filed.Filed.{Filed};
ghost use Rattle.crs_export.specs.Document.{Described, collection_value};
ghost use Rattle.crs_export.specs.Inserts.{Statement, AreInserts, transaction};
ghost use Rattle.csv_table.specs.declared.offices.names.Name.{Name};
ghost use Rattle.reg_op.specs.Contents.{Content};
ghost use Rattle.reg_op.specs.Ids.{Id};
ghost use Rattle.reg_op.specs.Operations.{Ops};
ghost use Rattle.reg_op.specs.Rows.{Row, rows};
ghost use Rattle.reg_report.specs.Conflicts.{Contested, AreConflicts};
ghost use Rattle.reg_export.specs.declared.naming.Capitals.{Capitals};
ghost use Rattle.reg_export.specs.KeyFiles.{KeyedText, AreFilesOf, HaveOneText, HaveBytes, lower, name_cmp};
ghost use Rattle.reg_export.specs.KeyNames.{name_with, authority_of, code_of, is_name_byte, is_no_separator};
ghost use Rattle.reg_export.specs.Titles.{Each};
ghost use Rattle.reg_export.specs.Geojson.{AreDescribed, IsGeojson};
ghost use Rattle.reg_export.specs.ProjSql.{FilesAs, IsSql};
ghost use Rattle.reg_export.specs.Sheet.{ReadsKeys};
ghost use Rattle.reg_texts.specs.KeySheet.{IsKeySheet};
ghost use Rattle.reg_export.specs.Graph.{label_of, AreGraphStatements, IsGraph};

use csv_table::laws::rows_are_read;
use csv_table::offices::laws::nothing_is_named;

/// Authority and code can be read from the name.
pub fn names_are_read_back()
    ensures authority { (p : Capitals) (a c : List ℕ) → authority_of (name_with p a c) ≡ a }
    ensures code { (p : Capitals) (a c : List ℕ) → code_of (name_with p a c) ≡ c }
{}

/// Different keys have different names.
pub fn no_name_is_shared()
    ensures { (p q : Capitals) (a c b d : List ℕ) → name_with p a c ≡ name_with q b d → (a ≡ b) × (c ≡ d) }
{}

/// A name has no `/`, is not empty, `.` or `..`, and ends with `.wkt`; the name of a key of bytes has only ASCII letters, digits,
/// `.`, `-`, `_` and `%`.
pub fn names_stay_in_the_folder()
    ensures separator { (p : Capitals) (a c : List ℕ) → list_all is_no_separator (name_with p a c) ≡ true }
    ensures some { (p : Capitals) (a c : List ℕ) → name_with p a c ≢ [] }
    ensures dot { (p : Capitals) (a c : List ℕ) → name_with p a c ≢ codes "." }
    ensures dots { (p : Capitals) (a c : List ℕ) → name_with p a c ≢ codes ".." }
    ensures extension { (p : Capitals) (a c : List ℕ) → (stem : List ℕ) × (name_with p a c ≡ stem ++ codes ".wkt") }
    ensures bytes { (p : Capitals) (a c : List ℕ) → All (λ b. b < 256) a → All (λ b. b < 256) c → list_all is_name_byte (name_with p a c) ≡ true }
{}

/// If no key has two texts, the names of the files of a folder ascend, so no two files have one name.
pub fn no_name_has_two_texts()
    ensures { (ts : List KeyedText) (fs : List File) → AreFilesOf ts fs → HaveOneText ts → IsStrictlySortedBy name_cmp (map (λ (f : File). f.name) fs) }
{}

/// If no key has two texts, two files of a folder have different names, also where the case of letters does not count.
pub fn no_names_differ_by_case_alone()
    ensures { (ts : List KeyedText) (fs : List File) → HaveBytes ts → AreFilesOf ts fs → HaveOneText ts → (f g : File) → Contains fs f → Contains fs g → lower f.name ≡ lower g.name → f ≡ g }
{}

/// The GeoJSON of some rows is a document of JSON: the collection of the features of these entries, in order.
pub fn geojson_is_read()
    ensures { (rs : List Row) (text : List ℕ) → IsGeojson rs text → (ds : List Described) × AreDescribed rs ds × (document text ≡ Some (collection_value ds)) }
{}

/// The SQL of some rows is a transaction of the statements that insert their entries: those that fit, and whose place no earlier one
/// has.
pub fn sql_is_read()
    ensures { (all : Bool) (rs : List Row) (text : List ℕ) → IsSql all rs text
        → (fs : List Filed) × (ss : List Statement) × Each (FilesAs all) rs fs × AreInserts [] fs ss × sql_text.AreStatements text (transaction ss) }
{}

/// The graph of a content is the statements of its nodes, of its edges with the labels of their ids, and of the lines between entries
/// in conflict.
pub fn graph_is_read()
    ensures { (all : Bool) (names : List Name) (x : Content) (text : List ℕ) → IsGraph all names x text
        → (cs : List Contested) × (ss : List (List graph_text.Part)) × AreConflicts (rows x.ops) cs × AreGraphStatements all names x.ops (rows x.ops) cs ss × graph_text.AreStatements text ss }
{}

/// Without names of offices, no id has a label.
pub fn ids_without_names()
    ensures { (s : Ops) (i : Id) → label_of [] s i ≡ [] }
{
    nothing_is_named();
}

/// The records of the sheet of keys are its header, and a row for each text of these rows, by key.
pub fn sheet_is_read()
    ensures { (x : Content) (rs : List Row) (text : List ℕ) → IsKeySheet x rs text → ReadsKeys x rs text }
{
    rows_are_read();
}
