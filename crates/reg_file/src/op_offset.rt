//! Where an operation was read.

use reg_op::OpId;

/// The place of an operation: the number of bytes from its id on.
#[derive(Clone, Copy, Debug, PartialEq, Eq)]
pub struct OpOffset {
    pub id: OpId,
    pub left: usize,
}
