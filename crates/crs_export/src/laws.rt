//! What other programs read. The functions do nothing: their contracts are the laws.

ghost use Rattle.std.specs.Prelude.{◌≡◌, ℕ, List, [], ◌∷◌, ◌++◌, Some, true};
ghost use Rattle.std.specs.List.{flat_map};
ghost use Rattle.json.specs.Json.{document, string};
ghost use Rattle.crs_export.specs.JsonQuotes as json_quotes;
ghost use Rattle.crs_export.specs.DotQuotes as dot_quotes;
ghost use Rattle.crs_export.specs.SqlQuotes as sql_quotes;
ghost use Rattle.crs_export.specs.SqlStatements as sql_text;
ghost use Rattle.crs_export.specs.DotStatements as graph_text;
ghost use Rattle.crs_part.specs.declared.crs.CrsParts.{CrsParts};
ghost use Rattle.crs_export.specs.declared.filed.Filed.{Filed};
ghost use Rattle.crs_export.specs.declared.title.Title.{Title};
ghost use Rattle.crs_export.specs.declared.markup.TheConstants.{GRAPH_START, GRAPH_END};
ghost use Rattle.crs_export.specs.Features.{features, collection};
ghost use Rattle.crs_export.specs.Document.{Described, collection_value};
ghost use Rattle.crs_export.specs.Rows.{rows_of};
ghost use Rattle.crs_export.specs.Sql.{sql};
ghost use Rattle.crs_export.specs.Inserts.{Statement, row_statements, AreInserts, transaction};
ghost use Rattle.crs_export.specs.Graphs.{node, caption, edge, rivals};
ghost use Rattle.crs_export.specs.Drawing.{is_color, node_statement, caption_statement, edge_statement, rivals_statement, graph_statements};

/// A quoted text is a string of JSON (RFC 8259) that stands for the text.
pub fn json_texts_are_read()
    ensures { (text : List ℕ) → document (json_quotes.quoted text) ≡ Some (string text) }
{}

/// A quoted text in a statement of DOT is one text, and is shown as it was, with a mark for each U+0000.
pub fn dot_texts_are_read()
    ensures { (text : List ℕ) → graph_text.parts_from graph_text.Statement (dot_quotes.quoted text) ≡ graph_text.Text (dot_quotes.marked text) ∷ [] }
{}

/// A quoted text in a statement of SQL, before a comma, is the text and the comma.
pub fn sql_texts_are_read()
    ensures { (text : List ℕ) → sql_text.parts_from sql_text.Statement (sql_quotes.quoted text ++ 44 ∷ []) ≡ sql_text.Text text ∷ sql_text.Byte 44 ∷ [] }
{}

/// A collection of features is a document of JSON (RFC 8259): a feature for each usage with a bounding box, in order, with the names
/// of GeoJSON and the texts of the entries.
pub fn collections_are_read()
    ensures { (ds : List Described) → document (collection (flat_map (λ (d : Described). features d.title d.usages) ds)) ≡ Some (collection_value ds) }
{}

/// The statements for some entries are, between `BEGIN` and `COMMIT`, those that insert each entry that fits and whose place no earlier one
/// has. Entries that are left out are in comments.
pub fn inserts_are_read()
    ensures entries { (fs : List Filed) (ss : List Statement) → AreInserts [] fs ss → sql_text.AreStatements (sql fs) (transaction ss) }
    ensures rows { (t : Title) (crs : CrsParts) → sql_text.has_no_null (rows_of t crs) ≡ true → sql_text.AreStatements (rows_of t crs) (row_statements t crs) }
{}

/// A node, the label of an id, an edge and a line between rivals are a statement of DOT each, in a graph of such statements.
pub fn graphs_are_read()
    ensures node { (t : Title) (color : List ℕ) → is_color color ≡ true → graph_text.AreStatements (node t color) (node_statement t color ∷ []) }
    ensures caption { (id shown : List ℕ) → graph_text.AreStatements (caption id shown) (caption_statement id shown ∷ []) }
    ensures edge { (old newer : List ℕ) → graph_text.AreStatements (edge old newer) (edge_statement old newer ∷ []) }
    ensures rivals { (one other : List ℕ) → graph_text.AreStatements (rivals one other) (rivals_statement one other ∷ []) }
    ensures whole { (bytes : List ℕ) (ss : List (List graph_text.Part)) → graph_text.AreStatements bytes ss
        → graph_text.AreStatements (GRAPH_START.now ++ bytes ++ GRAPH_END.now) (graph_statements ss) }
{}
