//! Builds the value of a text that has passed the slot check.
#![tactic(auto)]

mod built;
mod choices;
mod conversions;
mod crs;
mod datums;
mod ending;
mod identifiers;
mod leaves;
mod reader;
mod root;
mod systems;
mod units;
mod usages;
mod values;
mod words;

pub use root::build_parts;
