//! Compares two registers: the rows that only one of them has.

mod change;
mod comparing;
mod lines;
mod walk;

pub use change::{Sign, SignedRow};
pub use comparing::{RowDiff, compare};
pub use lines::changes_text;
pub use walk::changes;
