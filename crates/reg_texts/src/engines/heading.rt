//! The key of an entry, for the sentence about a refusal.

use crate::compare::heading;
use crate::engines::compare::fault_of;
use reg_engine::{CliFault, Print};
use reg_op::OpId;
use reg_state::Register;
use std::alloc::Global;

/// Prints the key, the id and the status of an entry.
#[derive(Drop)]
pub struct Heading {
    pub entry: OpId,
}

impl Print for Heading {
    ghost use Rattle.reg_texts.specs.Compare.{IsHeading};
    ghost use Rattle.reg_texts.specs.CompareCommands.{CannotCompare};

    ghost prints = { λ c. λ x. λ text. IsHeading c.entry x text };

    ghost refuses = { λ c. λ x. λ f. CannotCompare c.entry c.entry x f };

    fn text(&self, alloc: Global, register: &Register) -> Result<Vec<u8>, CliFault> {
        match heading(alloc, register, self.entry) {
            Ok(text) => Ok(text),
            Err(why) => Err(fault_of(why)),
        }
    }
}
