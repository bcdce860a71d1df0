//! Reads texts from sources: the value, the canonical text or the definition.

ghost use Rattle.std.specs.Prelude.{IfOk, IfErr};
ghost use Rattle.wkt_crs.specs.Source.{ReadsText, Finds, FindsCanon, FindsDefinition, IsReadFromFault, IsDefineFromFault};

use crate::canonical::{is_seen, rewritten};
use crate::definition::{Definition, DefinitionFault};
use crate::fault::ReadFault;
use crate::reading::read_crs;
use byte_io::{InFault, Source, read_up_to};
use crs_value::Crs;
use std::alloc::Global;
use wkt_tree::MAX_TEXT;

/// Why no reference system could be read from a source.
#[derive(Clone, Copy, Debug, PartialEq, Eq)]
pub enum ReadFromFault {
    /// The source failed, this many bytes after the start.
    ReadFailed(usize),
    Refused(ReadFault),
}

/// Why no definition could be read from a source.
#[derive(Clone, Copy, Debug, PartialEq, Eq)]
pub enum DefineFromFault {
    /// The source failed, this many bytes after the start.
    ReadFailed(usize),
    Refused(DefinitionFault),
}

/// The value that the text of the source spells, or its first fault, however the reads are split. Reading stops when
/// the text is too long.
pub fn read_crs_from<S: Source>(alloc: Global, source: &mut S) -> Result<Crs, ReadFromFault>
    ensures found { IfOk result (Finds (S.state source.old) (S.state source.new)) }
    ensures fault { IfErr result (IsReadFromFault (S.state source.old) (S.state source.new)) }
{
    let text = match text_from(alloc, source) {
        Ok(text) => text,
        Err(fault) => return Err(fault),
    };
    match read_crs(alloc, &text) {
        Ok(crs) => Ok(crs),
        Err(fault) => Err(ReadFromFault::Refused(fault)),
    }
}

/// The canonical text of the value that the text of the source spells, or its first fault. Like `read_crs_from`, it reads
/// up to the limit. A text that is recognized as canonical is returned unchanged.
pub fn canonical_text_from<S: Source>(
    alloc: Global,
    source: &mut S,
) -> Result<Vec<u8>, ReadFromFault>
    ensures found { IfOk result (λ canonical. FindsCanon (S.state source.old) (S.state source.new) canonical.items) }
    ensures fault { IfErr result (IsReadFromFault (S.state source.old) (S.state source.new)) }
{
    let text = match text_from(alloc, source) {
        Ok(text) => text,
        Err(fault) => return Err(fault),
    };
    if is_seen(&text) {
        return Ok(text);
    }
    match rewritten(alloc, &text) {
        Ok(canonical) => Ok(canonical),
        Err(fault) => Err(ReadFromFault::Refused(fault)),
    }
}

/// The definition of the value that the text of the source spells, or why there is none. Like `read_crs_from`, it reads
/// up to the limit.
pub fn define_from<S: Source>(alloc: Global, source: &mut S) -> Result<Definition, DefineFromFault>
    ensures found { IfOk result (FindsDefinition (S.state source.old) (S.state source.new)) }
    ensures fault { IfErr result (IsDefineFromFault (S.state source.old) (S.state source.new)) }
{
    let text = match read_up_to(alloc, source, MAX_TEXT + 1) {
        Ok(text) => text,
        Err(InFault::ReadFailed(n)) => return Err(DefineFromFault::ReadFailed(n)),
        Err(InFault::Memory) => return Err(DefineFromFault::Refused(DefinitionFault::Memory)),
    };
    match Definition::from_text(alloc, &text) {
        Ok(definition) => Ok(definition),
        Err(fault) => Err(DefineFromFault::Refused(fault)),
    }
}

// The text of the source.
fn text_from<S: Source>(alloc: Global, source: &mut S) -> Result<Vec<u8>, ReadFromFault>
    ensures found { IfOk result (λ text. ReadsText (S.state source.old) (S.state source.new) text.items) }
    ensures fault { IfErr result (IsReadFromFault (S.state source.old) (S.state source.new)) }
{
    match read_up_to(alloc, source, MAX_TEXT + 1) {
        Ok(text) => Ok(text),
        Err(InFault::ReadFailed(n)) => Err(ReadFromFault::ReadFailed(n)),
        Err(InFault::Memory) => Err(ReadFromFault::Refused(ReadFault::Memory)),
    }
}
