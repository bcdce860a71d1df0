//! Commands that change a register, and the office that does.
#![tactic(auto)]

mod by_words;
mod change;
mod changing;
mod offices;
mod once;

pub use change::{ListFault, Superseded, TWICE, ToldLine, retire, supersede};
pub use changing::{change_of, changed, say_news};
pub use offices::{Desk, misnamed, office, office_named, open_desk};
pub use once::change_once;
