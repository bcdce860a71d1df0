//! What rules of sense are made of: names without letter case, exact comparisons, tables, findings and their sentences.
#![tactic(auto)]

mod angles;
mod finding;
mod join;
mod names;
mod numerals;
mod parts;
mod sizes;
mod tables;

pub use angles::{is_at, is_elsewhere, is_packed, is_packed_unit};
pub use finding::{END, Finding, Piece};
pub use join::{joined, number};
pub use names::{after, begins, has_part, is_called, is_named};
pub use numerals::{fixed, is_code};
pub use parts::{
    angle_in, angle_of, angles_of, base_unit, either, ellipsoid_in, length_of, name_in,
    own_or_base, parameters_of, prime_in, projected_in, unit_of, unit_or, unit_said, usages_of,
};
pub use sizes::{
    digits_of, is_below, is_beyond, is_nearly, is_product_below, is_product_beyond, is_same_size,
    places_of, scaled,
};
pub use tables::{before, past, row_coded, row_of, split_piece};
