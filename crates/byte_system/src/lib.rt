//! The calls of the system on files, with contracts about all processes that make them.
#![tactic(auto)]

mod entries;
mod files;
mod host_answers;
mod host_files;
mod host_system;
mod likeness;
mod maker;
mod mem_system;
mod open_files;
mod own;
mod pair;
mod putting;
mod system;
mod trail;

pub use host_system::HostSystem;
pub use mem_system::{Act, Does, MemSystem};
pub use system::{Failed, FileReadFault, FolderSyncFault, Mode, NewFileFault, System, There};
