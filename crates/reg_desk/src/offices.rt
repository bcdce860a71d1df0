//! The command `offices`.

use reg_engine::{CliFault, Print};
use reg_query::{offices, offices_text};
use reg_state::Register;
use std::alloc::Global;

/// Prints a line for each office with an id that the register has seen.
#[derive(Drop)]
pub struct Offices;

impl Print for Offices {
    ghost use Rattle.reg_engine.specs.Store.{Never};
    ghost use Rattle.reg_desk.specs.Status.{IsOfficesText};

    ghost prints = { λ c. λ x. λ text. IsOfficesText x text };

    ghost refuses = { λ c. λ x. λ f. Never x f };

    fn text(&self, alloc: Global, register: &Register) -> Result<Vec<u8>, CliFault> {
        let Ok(offices) = offices(alloc, register) else {
            return Err(CliFault::Memory);
        };
        match offices_text(alloc, &offices) {
            Ok(text) => Ok(text),
            Err(_) => Err(CliFault::Memory),
        }
    }
}
