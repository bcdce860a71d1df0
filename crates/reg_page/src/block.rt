//! The blocks of a page.

use crate::described::Described;
use reg_op::OpId;
use reg_report::Conflict;

/// A part of a page, which is made as a whole. It refers to what the page shows, and has no bytes yet.
#[derive(Drop)]
pub enum Block<'a> {
    /// A constant of the program.
    Mark(&'static [u8]),
    /// The heading of a key in conflict.
    Key(&'a Conflict),
    /// Two entries of a key, side by side.
    Pair(&'a Described, &'a Described),
    /// An awaited id.
    Awaited(&'a OpId),
    /// The row of an entry, and whether it is in conflict.
    Row(&'a Described, bool),
    /// The same with a link to the row of another entry, which has its text.
    Linked(&'a Described, &'a Described, bool),
    /// Everything after the rows.
    End,
}
