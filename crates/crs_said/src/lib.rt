//! What a reference system says, as texts that are compared with those of others.
#![tactic(auto)]

mod claim;
mod collector;
mod datums;
mod fields;
mod identified;
mod letters;
mod parts;
mod references;
mod rounded;
mod says;
mod spellings;
mod systems;
mod whole;

pub use claim::Claim;
pub use datums::datum_claims;
pub use parts::part_claims;
pub use references::{said_names, system_names};
pub use spellings::case_claims;
pub use whole::{kind_and_name, without_names};
