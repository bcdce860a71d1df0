//! The texts of a register by key, each with its status; what differs between the texts of entries; and the engines of `texts` and
//! `compare`.
#![tactic(auto)]

mod against;
mod choice;
mod compare;
mod engines;
mod gathering;
mod given;
mod key;
mod key_fields;
mod key_lines;
pub mod laws;
mod listing;
mod saying;
mod texts;
mod version;

pub use against::{UnreadTexts, WhereRead, compared_texts, compared_where_read};
pub use compare::{Uncompared, compared_key, compared_text, heading};
pub use engines::{
    Compare, CompareKey, CompareTo, CompareWith, ComparedPart, Heading, Texts, WithFault,
    run_compared_where_read, run_compared_with, run_differs,
};
pub use key_lines::sheet_of_keys;
pub use texts::texts_of;
