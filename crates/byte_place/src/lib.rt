//! Places of files, over the calls of a system. Whatever is done with one, its calls keep to the protocol of files that are replaced.
#![tactic(auto)]

mod call_place;
mod laws;
mod new_place;
mod out_place;
mod path_opening;
mod path_place;
mod path_putting;
mod progress;
mod steps;
mod systems;
mod waiting;
mod way;

pub use call_place::CallPlace;
pub use laws::{calls_on_out_are_steps, its_calls_are_a_path, what_is_put_replaced};
pub use new_place::NewPlace;
pub use out_place::OutPlace;
pub use path_place::PathPlace;
pub use progress::ReserveFault;
pub use systems::{HostSystems, SystemSource};
