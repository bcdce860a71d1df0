//! Replacing a file, as calls on files that other processes use as well; and the law of all processes that do so.
#![tactic(auto)]

mod cuts;
mod laws;
mod reading;
mod replacing;

pub use cuts::{
    what_is_left_is_whole, what_is_left_was_there, what_is_synced_stays,
    what_is_there_when_synced_stays,
};
pub use laws::{
    a_fault_is_a_path, a_stop_is_a_path, each_path_is_chosen, idle_paths_are_fair, no_work_is_lost,
    one_alone_is_done, out_is_whole, paths_are_followed, replace_is_a_path, replaced_what_it_read,
    what_is_kept_stays,
};
pub use reading::{
    a_reader_sees_a_whole_file, a_reader_sees_what_stays, what_is_there_stays,
    what_readers_put_stays, what_unread_files_have_stays, what_was_put_unread,
    who_has_read_is_read,
};
pub use replacing::{Fault, ReservedFile, replace, replace_by, reserve};
