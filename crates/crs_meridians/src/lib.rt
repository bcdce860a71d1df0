//! Rules of sense about central meridians, standard parallels and zones: those that names and areas of use contradict.
#![tactic(auto)]

mod away;
mod grid;
mod meridian;
mod off;
mod said;
mod told;
mod turn;
mod zone;
mod zone_name;

pub use away::odd_away;
pub use meridian::odd_meridian;
pub use zone::odd_zone;
