//! Explains the fault of a command: its sentence, with the names of the files.
#![tactic(auto)]

mod heads;
mod namesakes;
mod naming;
mod paths;
mod sentence;

pub use heads::{FileHead, Spoiled};
pub use naming::SecondLook;
pub use paths::CommandFiles;
pub use sentence::{add, explain, explain_word, print_lines, say};
