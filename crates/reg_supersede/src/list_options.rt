//! The settings of all lines, and the effects of the lines so far.

use crate::pair::Pair;
use reg_keys::KeyIndex;
use reg_op::OpBody;
use reg_state::Register;
use std::collections::BTreeSet;
use uuid::Uuid;

/// The register before the first line, the index in which keys are looked up, whether keys are accepted, the office and the note
/// of its operations, and whether refused lines are left out.
#[derive(Clone, Copy)]
pub struct ListOptions<'a> {
    pub register: &'a Register,
    pub index: &'a KeyIndex,
    pub keys: bool,
    pub replica: Uuid,
    pub note: &'a str,
    pub keep_going: bool,
}

/// The effects of the lines so far, and the same as a set of pairs.
#[derive(Drop)]
pub struct ListEffects {
    pub bodies: Vec<OpBody>,
    pub pairs: BTreeSet<Pair>,
}
