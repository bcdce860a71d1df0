//! The entries that words name: an id names its entry, and a key its only entry that is not retired.
#![tactic(auto)]

mod answer;
mod every;
mod fault;
mod index;
mod indexed;
pub mod laws;
mod naming;
mod telling;
mod word;

pub use answer::{entries_answering, entries_of_key, has_key};
pub use every::{WordFault, each_of_words, every_of, every_of_words};
pub use fault::KeyFault;
pub use index::{KeyIndex, index_of, rows_of_key, rows_of_word};
pub use indexed::{each_of_words_in, every_in, every_of_words_in};
pub use naming::{entries_of, entry_in, entry_of, index_of_register, named, named_one};
pub use telling::told;
pub use word::names_key;
