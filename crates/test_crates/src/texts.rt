//! Tests of the crates of devices and texts.

mod condensing;
mod devices;
mod recognized;
mod slots;
mod tokens;
