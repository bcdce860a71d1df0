//! `retire` of the entries that words name.

use crate::change::retired;
use crate::words::changing::ChangeOf;
use reg_engine::{CliFault, Made};
use reg_op::OpId;
use reg_state::Register;
use std::alloc::Global;
use uuid::Uuid;

/// `Retire` of entries.
#[derive(Drop)]
pub struct RetireOf<'a> {
    pub replica: Uuid,
    pub note: &'a str,
}

impl ChangeOf for RetireOf<'_> {
    ghost use Rattle.reg_office.specs.Commands.{retirements};
    ghost use Rattle.reg_commands.specs.Change.{Makes, CannotMake};

    ghost makes = { λ c. λ es. λ fs. λ x. λ z. λ y. λ lines. Makes c.replica c.note.now (retirements es) z y lines };

    ghost refuses = { λ c. λ es. λ fs. λ x. λ z. λ f. CannotMake c.replica c.note.now (retirements es) z f };

    fn make_of(
        &self,
        alloc: Global,
        entries: &[OpId],
        _newer: &[OpId],
        _loaded: &Register,
        register: Register,
    ) -> Result<Made, CliFault> {
        match retired(alloc, register, self.replica, entries, self.note) {
            Ok(made) => Ok(made),
            Err(fault) => Err(fault),
        }
    }
}
