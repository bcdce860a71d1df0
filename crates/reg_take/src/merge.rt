//! Merges after which the first register and the join are known, so that the command line can say what they brought.

mod files;
mod joining;
mod merged;
mod shelf;

pub use files::merge_files;
pub use merged::Merged;
pub use shelf::merge_shelf;
