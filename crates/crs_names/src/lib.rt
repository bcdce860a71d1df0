//! The nodes of a reference system, and the rules of sense about their names, identifiers and units.
#![tactic(auto)]

mod finder;
mod key;
mod name;
mod node;
mod nodes;
mod odd;
mod unit;
mod units;

pub use node::Node;
pub use nodes::{HasNodes, Visitor};
pub use odd::{Seek, odd_item, odd_whole};
