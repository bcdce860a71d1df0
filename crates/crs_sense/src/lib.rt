//! Whether a coordinate reference system makes sense: the rules that an expert would ask about, and their sentences.
#![tactic(auto)]

mod accuracy;
mod axes;
mod axis_name;
mod boxes;
mod ellipsoid;
mod ellipsoids;
mod figure;
mod height;
mod meridians;
mod prime;
mod rule;
mod swapped;
mod unit_name;

pub use rule::{RULES, Rule};
