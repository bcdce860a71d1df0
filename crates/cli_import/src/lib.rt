//! The commands `enter`, `import` and `settle`.
#![tactic(auto)]

mod brought;
mod entering;
mod importing;
mod own_file;
mod settling;
mod texts;
mod tried;

pub use brought::{Brought, say_brought};
pub use entering::enter;
pub use importing::{ImportOutcome, NotImported, import};
pub use settling::settle;
