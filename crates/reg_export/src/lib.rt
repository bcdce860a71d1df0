//! A register for other programs: as a folder with a file for each key, as GeoJSON, as SQL for PROJ, as a row for each key, and as a
//! graph.
#![tactic(auto)]

mod choice;
mod chosen;
mod edges;
mod files;
mod formats;
mod geojson;
mod graph;
mod into;
mod into_rows;
mod keep;
pub mod laws;
mod naming;
mod notes;
mod proj_sql;
mod title;
mod twins;
mod waiting;

pub use choice::{Choice, found_for};
pub use chosen::{Chosen, uncontested};
pub use files::{Keyed, each_file, fitting, in_order, is_long};
pub use formats::{Format, Graph, run_handed};
pub use into::run_into;
pub use into_rows::{Handed, LeftOutOfFolder, files_of_found};
pub use keep::pass;
pub use naming::{Capitals, EXTENSION, file_name};
