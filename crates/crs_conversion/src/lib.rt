//! Rules of sense about conversions: their methods, their parameters and the units of these.
#![tactic(auto)]

mod angle;
mod axis_unit;
mod codes;
mod kinds;
mod needs;
mod operation;
mod packed;
mod parallels;
mod quantity;
mod radian;
mod round;
mod scale;
mod tables;

pub use angle::odd_angle;
pub use axis_unit::odd_false_unit;
pub use operation::odd_operation;
pub use packed::odd_packed;
pub use parallels::odd_parallels;
pub use quantity::odd_quantity;
pub use radian::odd_radian;
pub use scale::odd_scale;
