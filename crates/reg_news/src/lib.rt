//! What a change of a register brings: how many entries it changed, and what is not in order since.
#![tactic(auto)]

mod codes;
pub mod gained;
mod keys;
pub mod laws;
mod news;
mod said;
pub mod watch;

pub use codes::{Code, codes_between};
pub use news::{Grown, News, news_of};
pub use said::OfCodes;
