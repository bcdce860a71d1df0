//! Folders that appear as a whole: a new folder is filled, and renamed to its name when all its files are written.
#![tactic(auto)]

mod fault;
mod file;
mod mem_folder;
mod place;
mod putting;
mod system_folder;
mod way;

pub use fault::{FolderFault, MakeFolderFault};
pub use file::NamedFile;
pub use mem_folder::{FolderStep, MemFolder};
pub use place::FolderPlace;
pub use putting::put_folder;
pub use system_folder::SystemFolder;
