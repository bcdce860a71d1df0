//! What a take did.

use crate::files::Arrival;
use crate::taking::LeftOut;
use reg_op::OpId;
use reg_state::Register;

/// What a take did.
#[derive(Drop)]
pub struct TakeEffect {
    /// The register before.
    pub before: Register,
    /// The register with the files joined.
    pub after: Register,
    /// The files that are left out.
    pub left: Vec<LeftOut>,
    /// Where offices are named: the entries that are retired in the files, in their order. What the named offices had said of such an
    /// entry may be in the file no more, since its retirement makes that redundant.
    pub retired: Vec<OpId>,
    /// What the files gave, in their order.
    pub arrivals: Vec<Arrival>,
}
