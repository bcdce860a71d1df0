//! Rules of sense over several reference systems: what one says, and others say otherwise.
#![tactic(auto)]

mod claimant;
mod keys;
pub mod laws;
mod most;
mod names;
mod others;
mod rule;
mod tally;
mod twins;

pub use claimant::Claimant;
pub use rule::{WIDE_RULES, WideRule};
