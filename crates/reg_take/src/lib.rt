//! The command `take`: registers and pieces of other offices are joined to a register.
#![tactic(auto)]

mod again;
mod all;
mod at_once;
mod effect;
mod engine;
mod files;
mod inputs;
pub mod laws;
mod loading;
pub mod merge;
mod options;
pub mod own;
mod ready;
mod retired;
mod same;
mod taking;

pub use effect::TakeEffect;
pub use engine::{run_take, try_take};
pub use inputs::inputs_of;
pub use options::TakeOptions;
pub use taking::LeftOut;
