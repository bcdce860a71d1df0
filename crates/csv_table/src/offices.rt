//! Names of offices: a file of them, and texts in which they stand in the place of UUIDs.

mod fault;
pub mod laws;
mod names;
mod reading;
mod rows;
mod shown;
mod standing;
mod words;

pub use fault::NamesFault;
pub use names::Name;
pub use reading::read;
pub use rows::with_names;
pub use shown::{named, named_in};
pub use standing::Names;
pub use words::typed;
