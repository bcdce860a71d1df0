//! The page of a register in HTML: escaped texts, pages as lists of pieces, and the markup and the contents of the page.
#![tactic(auto)]

mod conflicts;
mod entries;
mod escaping;
mod head;
pub mod laws;
mod lines;
mod links;
mod maps;
mod marks;
pub mod markup;
mod missing;
mod pieces;
mod run;
mod script;
mod short;
mod standing;
mod style;
mod words;

pub use conflicts::{push_conflict_link, push_conflict_start, push_side_start, push_word};
pub use entries::{
    push_area, push_entry_id, push_entry_start, push_entry_text, push_operation_id,
    push_operation_note, push_question, push_same_text, push_standing,
};
pub use head::{PageFigures, push_end, push_figures, push_head, push_mark, push_number};
pub use lines::push_compared;
pub use links::{push_awaited_link, push_link};
pub use maps::push_map;
pub use marks::Feeds;
pub use missing::{push_awaited, push_gap_counts, push_gap_start};
pub use pieces::{PagePiece, push_pieces};
pub use run::RunKind;
pub use standing::Standing;
