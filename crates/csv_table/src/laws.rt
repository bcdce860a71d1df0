//! The laws of tables. The functions do nothing: their contracts are the laws.

ghost use Rattle.std.specs.Prelude.{◌≡◌, ◌≢◌, ◌∷◌, ℕ, List, map, true};
ghost use Rattle.std.specs.List.{flat_map};
ghost use Rattle.csv.specs.Reading.{AreRecords, default_config};
ghost use Rattle.csv.specs.Writing.{default_writer, read_back, row_text};
ghost use Rattle.csv.specs.declared.parser.State.TheVariants as st;
ghost use Rattle.text_hidden.specs.Marks.{hides_nothing};
ghost use Rattle.csv_table.specs.Answer.{IsTableOf};
ghost use Rattle.csv_table.specs.Cells.{cell};
ghost use Rattle.csv_table.specs.Table.{table};

/// The records of rows that csv's default writer wrote are these rows; a row without a field is written as one empty field.
pub fn rows_are_read()
    ensures { (rows records : List (List (List ℕ))) → AreRecords default_config st.StartRecord (flat_map (row_text default_writer) rows) records → records ≡ map read_back rows }
{}

/// The table of such rows has their fields, unless the rows begin with a byte order mark.
pub fn a_table_has_the_rows()
    ensures { (rows : List (List (List ℕ))) (text : List ℕ) → ((rest : List ℕ) → flat_map (row_text default_writer) rows ≢ 239 ∷ 187 ∷ 191 ∷ rest)
        → IsTableOf (flat_map (row_text default_writer) rows) text → text ≡ table (map read_back rows) }
{}

/// No character of a cell is hidden, whatever the bytes of its field are.
pub fn nothing_hidden_is_shown()
    ensures { (field : List ℕ) (columns : ℕ) → hides_nothing (cell field columns) ≡ true }
{}
