//! Opens what a command line names: registers in files and on shelves, OUT, and where rows are printed.
#![tactic(auto)]

pub mod ending;
mod inputs;
mod lines;
mod naming;
mod offices;
mod reading;
mod shelves;
mod stores;
mod table;
mod targets;
mod typed;
mod waiting;
mod words;

pub use inputs::{Replaced, open_inputs, parts, real_path};
pub use lines::{MISUSE, complain, failed, print};
pub use naming::{NamesProblem, names, names_again};
pub use offices::{OpenOffice, office_at, open_office};
pub use shelves::{lock_new_shelf, open_shelf, open_to_read};
pub use stores::{OpenedRegister, ReadRegister, give_of, next_file, open_register, print_of};
pub use table::{Rows, answered, is_table};
pub use targets::{RegisterTarget, open_target};
pub use typed::{entries, entry};
pub use waiting::{is_among, patience, reserve};
pub use words::{
    STANDARD_INPUT, STANDARD_INPUT_PATH, changed_place, explains, files_before, is_twice, listed,
    office_file, open, open_all, open_text, place, printing_place, push_listed, push_words,
    replica, wanted, word,
};
