//! Maps faults of the libraries to faults of commands.

ghost use Rattle.std.specs.Prelude.{◌≡◌};
ghost use Rattle.reg_engine.specs.Fault.{text_fault, definition_fault, file_fault, first_fault, write_fault, replace_fault, office_fault, piece_fault, shelf_fault};

use crate::fault::{CliFault, InputFault, OutFault, Refusal, ShelfProblem};
use byte_out::ReplaceFault;
use reg_file::{FirstFileFault, ReadFileFault, WriteFileFault};
use reg_office::OfficeFault;
use reg_shelf::ShelfFault;
use reg_state::PieceFault;
use wkt_crs::{DefineFromFault, DefinitionFault, ReadFault, ReadFromFault, Unspelled};

impl CliFault {
    /// The fault of reading the text in the file with this number.
    pub fn of_text(number: usize, fault: ReadFromFault) -> CliFault
        ensures { result ≡ text_fault number fault }
    {
        match fault {
            ReadFromFault::ReadFailed(n) => CliFault::File {
                number,
                fault: InputFault::ReadFailed(n),
            },
            ReadFromFault::Refused(ReadFault::Text(fault)) => {
                CliFault::Refused(Refusal::Text(fault))
            }
            ReadFromFault::Refused(ReadFault::Slot(fault)) => {
                CliFault::Refused(Refusal::Slot(fault))
            }
            ReadFromFault::Refused(ReadFault::Broken { condition, place }) => {
                CliFault::Refused(Refusal::Broken { condition, place })
            }
            ReadFromFault::Refused(ReadFault::Memory) => CliFault::Memory,
        }
    }

    /// The fault of making a definition from the text in the file with this number.
    pub fn of_definition(number: usize, fault: DefineFromFault) -> CliFault
        ensures { result ≡ definition_fault number fault }
    {
        match fault {
            DefineFromFault::ReadFailed(n) => {
                CliFault::of_text(number, ReadFromFault::ReadFailed(n))
            }
            DefineFromFault::Refused(DefinitionFault::Read(Unspelled::Text(text))) => {
                CliFault::Refused(Refusal::Text(text))
            }
            DefineFromFault::Refused(DefinitionFault::Read(Unspelled::Slot(slot))) => {
                CliFault::Refused(Refusal::Slot(slot))
            }
            DefineFromFault::Refused(
                DefinitionFault::Read(Unspelled::Broken { condition, place }),
            ) => CliFault::Refused(Refusal::Broken { condition, place }),
            DefineFromFault::Refused(DefinitionFault::NoIdentifier) => {
                CliFault::Refused(Refusal::NoIdentifier)
            }
            DefineFromFault::Refused(DefinitionFault::CanonicalTooLong) => {
                CliFault::Refused(Refusal::CanonicalTooLong)
            }
            // A text need not be canonical.
            DefineFromFault::Refused(DefinitionFault::NotCanonical | DefinitionFault::Memory) => {
                CliFault::Memory
            }
        }
    }

    /// The fault of reading the file with this number.
    pub fn of_file(number: usize, fault: ReadFileFault) -> CliFault
        ensures { result ≡ file_fault number fault }
    {
        let fault = match fault {
            ReadFileFault::File { fault, place } => InputFault::BadFile { fault, place },
            ReadFileFault::TooLarge => InputFault::TooLarge,
            ReadFileFault::ReadFailed(n) => InputFault::ReadFailed(n),
            ReadFileFault::Memory => return CliFault::Memory,
        };
        CliFault::File { number, fault }
    }

    /// The fault of an office's command.
    pub fn of_office(fault: OfficeFault) -> CliFault
        ensures { result ≡ office_fault fault }
    {
        match fault {
            OfficeFault::Memory => CliFault::Memory,
            fault => CliFault::Refused(Refusal::Office(fault)),
        }
    }

    /// The fault of writing a file of version 1.
    pub fn of_first(fault: FirstFileFault) -> CliFault
        ensures { result ≡ first_fault fault }
    {
        match fault {
            FirstFileFault::HasNote(id) => CliFault::Refused(Refusal::HasNote(id)),
            FirstFileFault::Write(fault) => CliFault::of_write(fault),
        }
    }

    /// The fault of writing a file.
    pub fn of_write(fault: WriteFileFault) -> CliFault
        ensures { result ≡ write_fault fault }
    {
        match fault {
            WriteFileFault::TooLarge => CliFault::Out(OutFault::TooLarge),
            WriteFileFault::WriteFailed(n) => CliFault::Out(OutFault::WriteFailed(n)),
            WriteFileFault::Memory => CliFault::Memory,
        }
    }

    /// The fault of replacing a file.
    pub fn of_replace(fault: ReplaceFault) -> CliFault
        ensures { result ≡ replace_fault fault }
    {
        match fault {
            ReplaceFault::NotOpened => CliFault::Out(OutFault::NotOpened),
            ReplaceFault::NewExists => CliFault::Out(OutFault::NewExists),
            ReplaceFault::WriteFailed(n) => CliFault::Out(OutFault::WriteFailed(n)),
            ReplaceFault::ReadFailed(n) => CliFault::Out(OutFault::ReadFailed(n)),
            ReplaceFault::Changed => CliFault::Out(OutFault::Changed),
            ReplaceFault::NotSynced => CliFault::Out(OutFault::NotSynced),
        }
    }

    /// The fault of joining a piece.
    pub fn of_piece(fault: PieceFault) -> CliFault
        ensures { result ≡ piece_fault fault }
    {
        match fault {
            PieceFault::Basis(id) => CliFault::Refused(Refusal::Basis(id)),
            PieceFault::Clash(id) => CliFault::Refused(Refusal::Clash(id)),
            PieceFault::Memory => CliFault::Memory,
        }
    }

    /// The fault of a shelf.
    pub fn of_shelf(fault: ShelfFault) -> CliFault
        ensures { result ≡ shelf_fault fault }
    {
        match fault {
            ShelfFault::BadSize => CliFault::Refused(Refusal::BadSize),
            ShelfFault::TooLarge => CliFault::Shelf(ShelfProblem::TooLarge),
            ShelfFault::NotShelf => CliFault::Shelf(ShelfProblem::NotShelf),
            ShelfFault::Memory => CliFault::Memory,
            ShelfFault::DiskFailed => CliFault::Shelf(ShelfProblem::DiskFailed),
        }
    }
}
