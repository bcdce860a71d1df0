//! The command `find`.

use reg_engine::{CliFault, Print, Refusal, id_lines};
use reg_query::{Query, found_ids, found_text};
use reg_state::Register;
use std::alloc::Global;

/// Prints the rows of the entries that match the query, after the header of the report of entries.
#[derive(Drop)]
pub struct Find<'a> {
    pub query: &'a Query<'a>,
}

impl Print for Find<'_> {
    ghost use Rattle.reg_engine.specs.Store.{Never};
    ghost use Rattle.reg_query.specs.Found.{IsFoundText};

    ghost prints = { λ c. λ x. λ text. IsFoundText c.query.now x text };

    ghost refuses = { λ c. λ x. λ f. Never x f };

    fn text(&self, alloc: Global, register: &Register) -> Result<Vec<u8>, CliFault> {
        match found_text(alloc, register, self.query) {
            Ok(text) => Ok(text),
            Err(_) => Err(CliFault::Memory),
        }
    }
}

/// Prints only the ids of these entries, one a line. If there is none, the command is refused.
#[derive(Drop)]
pub struct FindIds<'a> {
    pub query: &'a Query<'a>,
}

impl Print for FindIds<'_> {
    ghost use Rattle.reg_desk.specs.Find.{AreFoundLines, FindsNone};

    ghost prints = { λ c. λ x. λ text. AreFoundLines c.query.now x text };

    ghost refuses = { λ c. λ x. λ f. FindsNone c.query.now x f };

    fn text(&self, alloc: Global, register: &Register) -> Result<Vec<u8>, CliFault> {
        let Ok(ids) = found_ids(alloc, register, self.query) else {
            return Err(CliFault::Memory);
        };
        if ids.is_empty() {
            return Err(CliFault::Refused(Refusal::NoEntry));
        }
        match id_lines(alloc, &ids) {
            Ok(lines) => Ok(lines),
            Err(_) => Err(CliFault::Memory),
        }
    }
}
