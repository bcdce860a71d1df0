//! Readings of texts.

ghost use Rattle.std.specs.Prelude.{◌≡◌, ◌+◌, ◌^◌, ◌≤◌, IfOk, IfSome, IfNone};
ghost use Rattle.reg_import.specs.Readings.{IsReading, is_unread, place_in, quoted_in, IsFileText};

use crate::quoted::shown_quoted;
use std::alloc::{AllocError, Global};
use wkt_crs::{Definition, DefinitionFault, SharedKey};

/// The reading of a text.
#[derive(Drop)]
pub enum ReadText {
    /// A definition, and its key.
    Defined {
        definition: Definition,
        key: SharedKey,
    },
    /// Not a definition, for this reason.
    Unread(DefinitionFault),
}

impl ReadText {
    /// Whether the text is not a definition.
    pub fn is_unread(&self) -> bool
        ensures { result ≡ is_unread self.now }
    {
        match self {
            ReadText::Defined {
                definition: _,
                key: _,
            } => false,
            ReadText::Unread(_) => true,
        }
    }
}

/// A text of a file: the index of the file, from 0; the offset of its first byte; the offset that is reported if it is
/// rejected; its reading; and, if it is no definition, its first text in quotation marks.
#[derive(Drop)]
pub struct FileText {
    pub file: usize,
    pub place: usize,
    pub at: usize,
    pub reading: ReadText,
    pub quoted: Vec<u8>,
}

/// The place of a text's fault, or its first byte, in the file, if it is a number of 64 bits. The text begins at this place.
pub fn told_at(place: usize, reading: &ReadText) -> Option<usize>
    ensures some { IfSome result (λ at. at ≡ place + place_in reading.now) }
    ensures none { IfNone result (2 ^ 64 ≤ place + place_in reading.now) }
{
    match reading {
        ReadText::Defined {
            definition: _,
            key: _,
        } => Some(place),
        ReadText::Unread(fault) => match fault.place() {
            Some(inner) => place.checked_add(inner),
            None => Some(place),
        },
    }
}

/// Reads a text that begins at this place of the file.
pub fn read_at(
    alloc: Global,
    file: usize,
    place: usize,
    text: &[u8],
) -> Result<FileText, AllocError>
    ensures { IfOk result (IsFileText file place text.now) }
{
    let reading = read_text(alloc, text)?;
    // Places are smaller, since files are in memory.
    let Some(at) = told_at(place, &reading) else {
        return Err(AllocError);
    };
    let quoted = quoted_in(alloc, text, &reading)?;
    Ok(FileText {
        file,
        place,
        at,
        reading,
        quoted,
    })
}

// The first text in quotation marks as UTF-8, in a text that is no definition.
fn quoted_in(alloc: Global, text: &[u8], reading: &ReadText) -> Result<Vec<u8>, AllocError>
    ensures { IfOk result (λ quoted. quoted.items ≡ quoted_in text.now reading.now) }
{
    match reading {
        ReadText::Defined {
            definition: _,
            key: _,
        } => Ok(Vec::new(alloc)),
        ReadText::Unread(_) => shown_quoted(alloc, text),
    }
}

// Reads a text.
fn read_text(alloc: Global, text: &[u8]) -> Result<ReadText, AllocError>
    ensures { IfOk result (IsReading text.now) }
{
    match Definition::from_text(alloc, text) {
        Ok(definition) => {
            let key = definition.shared_key(alloc)?;
            Ok(ReadText::Defined { definition, key })
        }
        Err(DefinitionFault::Memory) => Err(AllocError),
        Err(fault) => Ok(ReadText::Unread(fault)),
    }
}
