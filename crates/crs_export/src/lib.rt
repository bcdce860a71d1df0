//! Reference systems for other programs: features of GeoJSON, statements of SQL, nodes of a graph.
#![tactic(auto)]

mod code;
mod collection;
mod dot;
mod dot_quotes;
mod ends;
mod feature;
mod filed;
mod geometry;
mod height;
mod height_rows;
mod held;
mod json_quotes;
pub mod laws;
pub mod markup;
mod names;
mod row_text;
mod rows;
mod sql;
mod sql_quotes;
mod table;
mod title;
mod verdict;

pub use code::number_of;
pub use collection::push_listed;
pub use dot::{push_caption, push_edge, push_node, push_rivals};
pub use dot_quotes::push_dot;
pub use feature::push_features;
pub use filed::{EntryText, Filed};
pub use held::{HeldText, RowPlace};
pub use json_quotes::push_json;
pub use rows::rows_of;
pub use sql::push_entry;
pub use sql_quotes::push_sql;
pub use table::{Table, table_of};
pub use title::Title;
