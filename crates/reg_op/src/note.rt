//! Notes of operations.

ghost use Rattle.std.specs.Prelude.{◌≡◌, ◌↔◌, ◌<◌, ◌≤◌, ◌⊎◌, true, [], length, Ok, Err, IfOk, IfErr, IsTrue, IsUtf8};
ghost use Rattle.std.specs.Str.{is_utf8};
ghost use Rattle.reg_op.specs.declared.note.NoteFault.TheVariants as fault;
ghost use Rattle.reg_op.specs.Notes.{IsNote, IsNoteFault};

use std::alloc::{AllocError, Global};
use std::fmt;
use std::marker::Model;
use std::rc::Rc;

/// Why some bytes are not a note.
#[derive(Clone, Copy, Debug, PartialEq, Eq)]
pub enum NoteFault {
    /// There are more than 200 bytes.
    NoteTooLong,
    /// The bytes are not UTF-8.
    NoteNotUtf8,
    /// An allocation failed.
    Memory,
}

impl NoteFault {
    ghost use Rattle.reg_op.specs.Notes.{fault_name};

    /// The name that is printed.
    pub fn name(self) -> &'static str
        ensures { result.now ≡ fault_name self }
    {
        match self {
            NoteFault::NoteTooLong => "NoteTooLong",
            NoteFault::NoteNotUtf8 => "NoteNotUtf8",
            NoteFault::Memory => "Memory",
        }
    }
}

impl fmt::Display for NoteFault {
    fn fmt<W: fmt::Write>(&self, f: &mut fmt::Formatter<W>) -> fmt::Result {
        match self {
            NoteFault::Memory => f.write_str("out of memory"),
            fault => f.write_str(fault.name()),
        }
    }
}

#[derive(Drop)]
struct NoteBytes {
    bytes: Vec<u8>,
    ghost utf8: { is_utf8 bytes.items ≡ true },
    ghost short: { length bytes.items ≤ 200 },
}

/// The note of an operation: UTF-8 of at most 200 bytes. Copies share it, and an empty note allocates nothing.
#[derive(Drop)]
pub struct Note {
    written: Option<Rc<NoteBytes>>,
}

impl Model for Note {
    ghost use Rattle.std.specs.Prelude.{ℕ, List};
    ghost use Rattle.reg_op.specs.Notes.{bytes_in};

    ghost Value = { List ℕ };

    ghost view = { λ n. bytes_in (λ r. r.value.bytes.items) n.written };
}

impl Note {
    /// The most bytes of a note.
    pub const MAX: usize = 200;

    /// The empty note.
    pub fn empty() -> Note
        ensures { result ≡ [] }
    {
        Note { written: None }
    }

    /// The note of these bytes.
    pub fn new(alloc: Global, bytes: &[u8]) -> Result<Note, NoteFault>
        ensures ok { IfOk result (λ note. (note ≡ bytes.now) × IsNote bytes.now) }
        ensures fault { IfErr result (IsNoteFault bytes.now) }
        ensures only { IsNote bytes.now → (result ≡ Ok bytes.now) ⊎ (result ≡ Err fault.Memory) }
        // These are reported without allocating.
        ensures long { 200 < length bytes.now → result ≡ Err fault.NoteTooLong }
        ensures bytes { length bytes.now ≤ 200 → ¬ (IsUtf8 bytes.now) → result ≡ Err fault.NoteNotUtf8 }
        ensures empty { bytes.now ≡ [] → result ≡ Ok [] }
    {
        if bytes.len() > Note::MAX {
            return Err(NoteFault::NoteTooLong);
        }
        if bytes.is_empty() {
            return Ok(Note::empty());
        }
        if let Err(_) = simdutf8::compat::from_utf8(bytes) {
            return Err(NoteFault::NoteNotUtf8);
        }
        match copied(alloc, bytes) {
            Ok(note) => Ok(note),
            Err(_) => Err(NoteFault::Memory),
        }
    }

    /// The bytes, which are UTF-8.
    pub fn as_bytes(&self) -> &[u8]
        ensures bytes { result.now ≡ self.now }
        ensures note { IsNote self.now }
    {
        match &self.written {
            Some(written) => written.bytes.as_slice(),
            None => &[],
        }
    }

    /// Whether it has no bytes.
    pub fn is_empty(&self) -> bool
        ensures { IsTrue result ↔ (self.now ≡ []) }
    {
        self.as_bytes().is_empty()
    }

    /// A copy that shares the bytes.
    pub fn try_clone(&self) -> Result<Note, AllocError>
        ensures { IfOk result (λ copy. copy ≡ self.now) }
    {
        let Some(written) = &self.written else {
            return Ok(Note::empty());
        };
        let written = Some(written.clone()?);
        Ok(Note { written })
    }

    /// Whether the bytes are the same.
    pub fn is_same(&self, other: &Note) -> bool
        ensures { IsTrue result ↔ (self.now ≡ other.now) }
    {
        self.as_bytes() == other.as_bytes()
    }
}

// The note of valid bytes.
fn copied(alloc: Global, bytes: &[u8]) -> Result<Note, AllocError>
    requires { IsNote bytes.now }
    ensures { IfOk result (λ note. note ≡ bytes.now) }
{
    let bytes = Vec::from_slice(alloc, bytes)?;
    let written = Some(Rc::new(alloc, NoteBytes { bytes })?);
    Ok(Note { written })
}
