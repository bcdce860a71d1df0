//! The reports of what is not in order.

use reg_disorder::{Disorder, amiss_text};
use reg_engine::{CliFault, Print};
use reg_state::Register;
use std::alloc::Global;

/// Prints a line for each entry that is not in order in this way.
#[derive(Drop)]
pub struct Amiss {
    pub way: Disorder,
}

impl Print for Amiss {
    ghost use Rattle.reg_engine.specs.Store.{Never};
    ghost use Rattle.reg_disorder.specs.Reports.{IsAmissText};

    ghost prints = { λ c. λ x. λ text. IsAmissText c.way x text };

    ghost refuses = { λ c. λ x. λ f. Never x f };

    fn text(&self, alloc: Global, register: &Register) -> Result<Vec<u8>, CliFault> {
        match amiss_text(alloc, register, self.way) {
            Ok(text) => Ok(text),
            Err(_) => Err(CliFault::Memory),
        }
    }
}
