//! A sentence for each refusal: what is wrong, with the path of the file instead of its number, and the way out.
#![tactic(auto)]

mod guard;
mod imports;
mod inputs;
mod outputs;
mod paths;
mod refusals;
mod shelves;
mod shown;

use byte_office::OfficeFileFault;
pub use imports::{KeyTaken, LEAVES_OUT, TAKE_JOINS};
pub use paths::{FileName, Findings, Looks, Paths, SpecialCommand};
use reg_engine::CliFault;
pub use shown::{Shown, ShownLines};
use std::fmt;

/// The sentence for a fault and, below it, the way out if there is one. Each is a line.
#[derive(Clone, Copy)]
pub struct Sentence<'a> {
    pub fault: CliFault,
    pub found: Findings<'a>,
    /// The files that the command names.
    pub paths: Paths<'a>,
}

impl fmt::Display for Sentence<'_> {
    fn fmt<W: fmt::Write>(&self, f: &mut fmt::Formatter<W>) -> fmt::Result {
        match self.fault {
            CliFault::Refused(refusal) => refusals::write(f, refusal, &self.found, &self.paths),
            CliFault::File { number, fault } => {
                inputs::write(f, number, fault, self.found.looks, &self.paths)
            }
            CliFault::Out(fault) => outputs::write(f, fault, self.found.is_written, &self.paths),
            CliFault::Shelf(problem) => shelves::write(f, problem, &self.paths),
            CliFault::Office(fault) => {
                guard::write_unnoted(f, fault == OfficeFileFault::TooLarge, &self.paths)
            }
            CliFault::Memory => f.write_str("there is not enough memory\n"),
        }
    }
}
