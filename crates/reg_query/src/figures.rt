//! The counts of a register, and of each office.

mod counting;
mod office;
mod office_lines;
mod register;
mod replicas;

pub use office::{OfficeFigures, offices};
pub use office_lines::offices_text;
pub use register::{Figures, figures_of};
