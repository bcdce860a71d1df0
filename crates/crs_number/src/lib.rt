//! Exact decimals, and the numerals that spell them.
#![tactic(auto)]

mod check;
mod counts;
mod decimals;
pub mod laws;
mod numerals;
mod order;
mod reduced;
mod text;

pub use check::check_numeral;
pub use counts::{count_laws, is_count};
pub use decimals::{Decimal, NumberFault};
