//! The command line of `crsreg`: it reads the command line and the environment, runs the command, and reports how it ended.
#![tactic(auto)]

mod command;
mod environment;
mod overwriting;
mod said;
mod shells;
mod telling;

pub use command::{answer, run};
