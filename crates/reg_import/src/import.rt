//! An import, and why it is refused.

ghost use Rattle.std.specs.Prelude.{◌<◌, ◌≤◌, ◌+◌, length};

use crate::action::{Differs, Problem, TextAction};
use crate::plan::ImportState;
use reg_op::Note;
use uuid::Uuid;

/// Why an import is refused.
#[derive(Clone, Copy, Debug, PartialEq, Eq)]
pub enum ImportRefusal {
    /// The note has more than 200 bytes.
    NoteTooLong,
    /// The text at this index, from 0, is the first that is refused.
    Refused { at: usize, problem: Problem },
    /// A number would exceed 4,294,967,295.
    CountSpent,
    Memory,
}

/// An import that takes the readings of texts, one after another.
#[derive(Drop)]
pub struct Importing {
    pub(crate) replica: Uuid,
    pub(crate) differs: Differs,
    pub(crate) note: Note,
    pub(crate) first: u64,
    pub(crate) made: ImportState,
    pub(crate) is_spent: bool,
    ghost positive: { 0 < first },
    ghost fits: { first + length made.ops.items ≤ 4294967296 },
}

/// An import that has taken one more reading, and the action for its text.
#[derive(Drop)]
pub struct TakenText {
    pub importing: Importing,
    pub told: TextAction,
}
