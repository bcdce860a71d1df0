//! Disks, and what a stop may leave on them.
#![tactic(auto)]

mod disk;
mod file_disk;
mod mem_disk;
mod new_disk;
mod new_file;
mod pending;
mod record;
mod script;
mod span;
mod through;

pub use disk::{Disk, DiskFault};
pub use file_disk::FileDisk;
pub use mem_disk::MemDisk;
pub use new_disk::NewDisk;
pub use new_file::NewFile;
pub use pending::Pending;
pub use through::{replace_in_two, write_through};
