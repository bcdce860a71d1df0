//! Stores, the drivers that run a command on a store, and the faults of commands.
#![tactic(auto)]

mod causes;
mod drivers;
mod fault;
mod inputs;
mod kinds;
mod outputs;
mod shelf_steps;
mod store;
mod whole_file;

pub use drivers::{
    Change, Give, Made, Print, keep_and_tell, run_change, run_give, run_print, tell,
};
pub use fault::{CliFault, InputFault, OutFault, Refusal, ShelfProblem};
pub use inputs::{Parts, parts_of, read_file, read_parts, read_parts_after, read_summary};
pub use kinds::Either;
pub use outputs::{id_lines, publish_register};
pub use shelf_steps::{keep_on, put_on, ready_on, restore_from};
pub use store::{Base, InFile, Keep, OfFile, OnShelf, Store};
pub use whole_file::read_whole;
