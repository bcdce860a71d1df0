//! The note of a command, which all its operations share.

ghost use Rattle.std.specs.Prelude.{◌≡◌, ◌≤◌, length, IfOk};
ghost use Rattle.reg_office.specs.Making.{note_fault};

use crate::OfficeFault;
use reg_op::{Note, NoteFault};
use std::alloc::{AllocError, Global};

/// Why a note is refused.
pub fn note_fault(note: &str) -> Option<OfficeFault>
    ensures { result ≡ note_fault note.now }
{
    if note.len() > Note::MAX {
        return Some(OfficeFault::NoteTooLong);
    }
    None
}

/// The note with this text, or why it is refused.
pub fn note_of(alloc: Global, text: &str) -> Result<Note, AllocError>
    requires { length text.now ≤ 200 }
    ensures { IfOk result (λ note. note ≡ text.now) }
{
    match Note::new(alloc, text.as_bytes()) {
        Ok(note) => Ok(note),
        Err(NoteFault::Memory) => Err(AllocError),
        Err(NoteFault::NoteTooLong) => unreachable!(),
        Err(NoteFault::NoteNotUtf8) => unreachable!(),
    }
}
