//! Why texts were not imported, or not all of them.

ghost use Rattle.std.specs.Prelude.{◌≡◌, []};
ghost use Rattle.reg_desk.specs.declared.import.fault.ImportFault.TheVariants as import;
ghost use Rattle.reg_desk.specs.Import.{exit_status, taken_by};

use reg_engine::{CliFault, Refusal};
use reg_import::Problem;
use reg_op::OpId;
use std::alloc::Global;
use std::fmt::{self, Display};
use wkt_crs::{DefinitionFault, SlotFault, Unspelled};

/// Why texts were not imported, or not all of them. It prints as one line.
#[derive(Clone, Copy, Debug, PartialEq, Eq)]
pub enum ImportFault {
    Cli(CliFault),
    /// A text of the file with this number is rejected for this reason, at this place of the file.
    Refused {
        problem: Problem,
        place: usize,
        file: usize,
    },
}

/// Why texts were not imported, or not all of them, with explanations of those that were refused.
#[derive(Drop)]
pub struct Unimported {
    pub fault: ImportFault,
    pub notes: Vec<u8>,
}

impl Unimported {
    /// A fault without explanation.
    pub fn plain(alloc: Global, fault: CliFault) -> Unimported
        ensures fault { result.fault ≡ import.Cli fault }
        ensures notes { result.notes.items ≡ [] }
    {
        Unimported {
            fault: ImportFault::Cli(fault),
            notes: Vec::new(alloc),
        }
    }
}

impl ImportFault {
    /// The exit status of the program: that of the fault, and 1 for a refused text.
    pub fn status(&self) -> u8
        ensures { result ≡ exit_status self.now }
    {
        match self {
            ImportFault::Cli(fault) => fault.status(),
            ImportFault::Refused { .. } => 1,
        }
    }

    /// The entry that has the key of the refused text. `None` for another fault.
    pub fn taken(&self) -> Option<OpId>
        ensures { result ≡ taken_by self.now }
    {
        match self {
            ImportFault::Refused {
                problem: Problem::KeyTaken(entry),
                ..
            } => Some(*entry),
            _ => None,
        }
    }
}

impl fmt::Display for ImportFault {
    fn fmt<W: fmt::Write>(&self, f: &mut fmt::Formatter<W>) -> fmt::Result {
        match self {
            ImportFault::Cli(fault) => fault.fmt(f),
            ImportFault::Refused {
                problem,
                place,
                file,
            } => {
                f.write_str("refused: ")?;
                write_problem(f, problem)?;
                write!(f, " at {place} of file {file}")
            }
        }
    }
}

fn write_problem<W: fmt::Write>(f: &mut fmt::Formatter<W>, problem: &Problem) -> fmt::Result {
    match problem {
        Problem::KeyTaken(id) => Refusal::KeyTaken(*id).fmt(f),
        Problem::Unread(fault) => write_fault(f, fault),
    }
}

// The name of a fault, and what it names.
fn write_fault<W: fmt::Write>(f: &mut fmt::Formatter<W>, fault: &DefinitionFault) -> fmt::Result {
    match fault {
        DefinitionFault::Read(Unspelled::Slot(SlotFault::Missing(slot, _))) => {
            let slot = slot.name();
            write!(f, "Missing {slot}")
        }
        DefinitionFault::Read(Unspelled::Broken { condition, .. }) => {
            let condition = condition.name();
            write!(f, "Broken {condition}")
        }
        fault => f.write_str(fault.name()),
    }
}
