//! Engines of `lint`: of a register, of the texts of files, and of the entries that a register has gained.

mod entered;
mod lint;
mod looked;
mod rules;
mod texts;

pub use entered::entered_text;
pub use lint::{run_lint, run_lint_kept};
pub use rules::usual_of;
pub use texts::{TextsFault, read_texts};
