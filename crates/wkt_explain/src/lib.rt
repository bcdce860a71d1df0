//! Explains in words where and why a text is refused.
#![tactic(auto)]

mod characters;
mod explain;
mod fronts;
mod hints;
pub mod laws;
mod marks;
mod path;
mod position;
mod recorded;
mod sentences;
mod shown;
mod walk;
mod wanted;
mod words;

pub use explain::{Explainer, explain_text, explain_within};
pub use hints::Hint;
pub use recorded::Recorded;
