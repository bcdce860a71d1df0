//! Commands of an office that are run again after a stop, and have their effects once.

mod effects;
mod once;
mod words;

pub use effects::Effects;
pub use once::{Noted, Once};
pub use words::{EffectsOf, OnceOf};
