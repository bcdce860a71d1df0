//! Settling: the entries to retire so that others with their keys are kept.

mod double;
mod fault;
mod key;
mod rival;
mod settling;

pub use double::doubles;
pub use fault::SettleFault;
pub use settling::to_retire;
