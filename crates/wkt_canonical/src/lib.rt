//! Recognizes canonical texts.
#![tactic(auto)]

mod canonical;
mod conversions;
mod crs;
mod datums;
mod digits;
mod ends;
mod front;
mod identifiers;
mod leaves;
mod node;
mod numerals;
mod systems;
mod units;
mod usages;
mod values;
mod words;

pub use canonical::{is_canonical, recognize};
pub use crs::SeenSystem;
pub use identifiers::Identifier;
