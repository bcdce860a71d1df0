//! What a join of registers undoes: what one of them says of keys, that nobody who knew it took back, and that the join does not
//! say.

pub mod laws;
mod list;
mod over;
mod saying;
mod voice;

pub use list::undone_in;
pub use over::piece_over;
pub use saying::SayingText;
