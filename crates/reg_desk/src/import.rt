//! The command `import`: enters many texts of files at once.

mod against;
mod engine;
mod fault;
mod files;
mod first;
mod linked;
mod notes;
mod olds;
mod options;
mod progress;
mod ready;
mod room;
mod telling;
mod texts;

pub use engine::{run_import, try_import};
pub use fault::{ImportFault, Unimported};
pub use options::ImportOptions;
pub use room::HasRoom;
