//! What an import tells where memory runs out while it reads its texts.

ghost use Rattle.std.specs.Prelude.{List, [], ◌∷◌, IfSome, IfNone};
ghost use Rattle.wkt_tree.specs.Tree.{Piece};
ghost use Rattle.wkt_crs.specs.Faults.{IsGrammatical};
ghost use Rattle.wkt_compare.specs.Texts.{piece_of, IsCutInto};
ghost use Rattle.reg_op.specs.Contents.{Content, IsContent};
ghost use Rattle.reg_import.specs.declared.reading.ReadText.TheVariants as reading;
ghost use Rattle.reg_import.specs.Readings.{IsReading};
ghost use Rattle.reg_desk.specs.ImportFiles.{bytes_of};
ghost use Rattle.reg_desk.specs.ImportTexts.{TextAt, text_at, AreCuts};
ghost use Rattle.reg_desk.specs.Import.{MayHide, MayHideFirst, IsFaultOf, EndsAtFirst, EndsEarly};

use crate::import::fault::{ImportFault, Unimported};
use crate::import::options::ImportOptions;
use crate::import::texts::FileCut;
use reg_engine::{CliFault, Refusal};
use reg_import::{Problem, ReadText, told_at};
use reg_office::OfficeFault;
use reg_op::Note;
use std::alloc::Global;
use wkt_compare::splitting::{Cut, begin, next_text};
use wkt_crs::{Definition, DefinitionFault};

// The first text of a file.
fn first_in(bytes: &[u8]) -> Option<Cut<'_>>
    ensures some { IfSome result (λ c. (later : List Piece) × IsCutInto bytes.now (piece_of c ∷ later)) }
    ensures none { IfNone result (IsCutInto bytes.now []) }
{
    let place = begin(bytes);
    let Some((cut, _)) = next_text(place, &bytes[place..]) else {
        return None;
    };
    Some(cut)
}

// The first text of the files.
fn first_text<'a>(files: &'a [Vec<u8>]) -> Option<FileCut<'a>>
    ensures some { IfSome result (λ c. (later : List TextAt) × AreCuts 0 (bytes_of files.now) (text_at c ∷ later)) }
    ensures none { IfNone result (AreCuts 0 (bytes_of files.now) []) }
{
    for (file, bytes) in files.iter().enumerate() {
        if let Some(cut) = first_in(bytes) {
            return Some(FileCut {
                file,
                place: cut.place,
                bytes: cut.bytes,
            });
        }
    }
    None
}

// Why a text is no definition, if there is memory to find out. A fault of its tokens or slots takes none.
fn unread(alloc: Global, text: &[u8]) -> Option<DefinitionFault>
    ensures some { IfSome result (λ f. IsReading text.now (reading.Unread f)) }
    ensures none { IfNone result (IsGrammatical text.now) }
{
    match Definition::from_text(alloc, text) {
        Ok(_definition) => None,
        Err(DefinitionFault::Memory) => None,
        Err(fault) => Some(fault),
    }
}

// The fault of a text, unless it takes memory.
fn fault_in(alloc: Global, first: usize, cut: &FileCut<'_>) -> Option<ImportFault>
    ensures some { IfSome result (IsFaultOf first (text_at cut.now)) }
    ensures none { IfNone result (MayHide first (text_at cut.now)) }
{
    let Some(fault) = unread(alloc, cut.bytes) else {
        return None;
    };
    let Some(place) = told_at(cut.place, &ReadText::Unread(fault)) else {
        return None;
    };
    let Some(file) = first.checked_add(cut.file) else {
        return None;
    };
    Some(ImportFault::Refused {
        problem: Problem::Unread(fault),
        place,
        file,
    })
}

// The fault of the first text, if the import ends there, unless it takes memory.
fn first_fault(
    alloc: Global,
    first: usize,
    options: &ImportOptions<'_>,
    files: &[Vec<u8>],
) -> Option<ImportFault>
    ensures some { IfSome result (EndsAtFirst options.now first (bytes_of files.now)) }
    ensures none { IfNone result (MayHideFirst options.now first (bytes_of files.now)) }
{
    if options.keep_going {
        return None;
    }
    if options.explain {
        return None;
    }
    let Some(cut) = first_text(files) else {
        return None;
    };
    match fault_in(alloc, first, &cut) {
        Some(fault) => Some(fault),
        None => None,
    }
}

/// Why texts are not imported if memory ran out while they were read: what takes no memory is reported nevertheless.
pub fn run_out(
    alloc: Global,
    first: usize,
    options: &ImportOptions<'_>,
    files: &[Vec<u8>],
) -> Unimported
    ensures { (x : Content) → IsContent x → EndsEarly options.now first x (bytes_of files.now) result }
{
    if options.note.len() > Note::MAX {
        return Unimported::plain(
            alloc,
            CliFault::Refused(Refusal::Office(OfficeFault::NoteTooLong)),
        );
    }
    match first_fault(alloc, first, options, files) {
        Some(fault) => Unimported {
            fault,
            notes: Vec::new(alloc),
        },
        None => Unimported::plain(alloc, CliFault::Memory),
    }
}
