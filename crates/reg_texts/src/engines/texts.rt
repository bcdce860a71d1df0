//! The command `texts`.

use crate::texts::texts_of;
use reg_engine::{CliFault, Print};
use reg_state::Register;
use std::alloc::Global;

/// Prints each text of an entry that is not retired, by key, with its status.
#[derive(Drop)]
pub struct Texts;

impl Print for Texts {
    ghost use Rattle.reg_engine.specs.Store.{Never};
    ghost use Rattle.reg_texts.specs.Texts.{IsTextsOf};

    ghost prints = { λ c. λ x. λ text. IsTextsOf x text };

    ghost refuses = { λ c. λ x. λ f. Never x f };

    fn text(&self, alloc: Global, register: &Register) -> Result<Vec<u8>, CliFault> {
        match texts_of(alloc, register) {
            Ok(text) => Ok(text),
            Err(_) => Err(CliFault::Memory),
        }
    }
}
