//! What a comparison of registers found.
use reg_state::Register;

/// The registers that were compared, and whether they differ.
#[derive(Drop)]
pub struct Comparison {
    /// The older register.
    pub before: Register,
    /// The join of the others, and of the older register if that was asked for.
    pub after: Register,
    /// Whether only one of the two has some row.
    pub differ: bool,
}
