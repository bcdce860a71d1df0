//! The engines of `texts` and `compare`.

mod compare;
mod differs;
mod heading;
mod texts;
mod with;

pub use compare::{Compare, CompareKey, CompareTo, CompareWith};
pub use differs::run_differs;
pub use heading::Heading;
pub use texts::Texts;
pub use with::{ComparedPart, WithFault, run_compared_where_read, run_compared_with};
