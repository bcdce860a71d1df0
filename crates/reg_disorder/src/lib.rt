//! What is not in order in a register: texts that were entered twice, superseded entries without a valid heir, and keys whose
//! entries are all retired.
#![tactic(auto)]

mod code;
mod dangling;
mod disorder;
mod double;
mod heir;
pub mod laws;
mod lines;
mod link;
pub mod linking;
mod listed;
mod listing;
mod mark;
pub mod settling;
mod standing;
mod withdrawn;

pub use code::{Standing, has_mark, standing_of};
pub use disorder::Disorder;
pub use lines::amiss_text;
pub use listed::ListedEntry;
pub use listing::{amiss, count_amiss};
pub use mark::{Mark, marks};
