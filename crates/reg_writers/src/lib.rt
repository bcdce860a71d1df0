//! A model of any number of commands that replace one file, and its laws: for bytes, and for registers.
#![tactic(auto)]

mod commands;
mod laws;
pub mod offices;
mod registers;
mod steps;

pub use commands::{a_list_is_steps, a_merge_is_steps, an_import_is_steps, retiring_is_steps};
pub use laws::{
    ids_are_kept, no_number_is_given_twice, no_work_is_lost, one_alone_at_a_desk,
    one_alone_is_done, one_who_gave, what_is_left_blocks,
};
pub use registers::nothing_printed_is_lost;
pub use steps::{
    comparing_is_a_step, failing_is_two_steps, landing_is_no_step, making_is_a_step,
    putting_is_a_step, removing_is_a_step, syncing_is_a_step, writing_is_a_step,
};
