//! Which entries of a register, or texts of files, break which rules of sense, and the rows that say so.
#![tactic(auto)]

mod asked;
mod details;
mod disputes;
pub mod engine;
mod entered;
mod kept;
mod keys;
mod known;
pub mod laws;
mod lines;
mod live;
mod marks;
mod rule;
mod screened;
mod screening;
mod texts;
mod voices;
mod words;

pub use asked::questions;
pub use crs_sense::Rule;
pub use entered::entered_subjects;
pub use kept::{KeptForm, KeptSubject};
pub use known::{Known, known_rows};
pub use lines::{has_rows, lint_text};
pub use live::subjects_with;
pub use reg_sense::WideRule;
pub use rule::{ANY_RULES, AnyRule};
pub use texts::{Unread, push_texts};
