//! Explanations of refused texts.

ghost use Rattle.std.specs.Prelude.{◌≡◌, map, IfOk};
ghost use Rattle.std.specs.String.{string_bytes};
ghost use Rattle.reg_desk.specs.ImportTexts.{text_at};
ghost use Rattle.reg_desk.specs.ImportNotes.{name_of, note_in};

use crate::import::texts::FileCut;
use reg_import::{Problem, TextAction};
use std::alloc::{AllocError, Global};
use wkt_crs::DefinitionFault;
use wkt_explain::Explainer;

/// The name of the file with this index.
pub fn name_of(names: &[String], file: usize) -> &str
    ensures { result.now ≡ name_of (map string_bytes names.now) file }
{
    match names.get(file) {
        Some(name) => name.as_str(),
        None => "",
    }
}

// The explanation of the fault of a text, by the explainer of its file.
fn explained(
    alloc: Global,
    name: &str,
    explainer: &mut Explainer<'_>,
    cut: &FileCut<'_>,
    fault: DefinitionFault,
) -> Result<Vec<u8>, AllocError>
    ensures note { IfOk result (λ note. note.items ≡ note_in name.now explainer.old (text_at cut.now) (TextAction.Refused (Problem.Unread fault))) }
    ensures file { explainer.new ≡ explainer.old }
{
    // Places are smaller, since files are in memory.
    let Some(end) = cut.place.checked_add(cut.bytes.len()) else {
        return Err(AllocError);
    };
    explainer.explain(alloc, name, cut.place, end, fault)
}

/// The explanation for the outcome of a text, by the explainer of its file.
pub fn note_by(
    alloc: Global,
    name: &str,
    explainer: &mut Explainer<'_>,
    cut: &FileCut<'_>,
    told: TextAction,
) -> Result<Vec<u8>, AllocError>
    ensures note { IfOk result (λ note. note.items ≡ note_in name.now explainer.old (text_at cut.now) told) }
    ensures file { explainer.new ≡ explainer.old }
{
    match told {
        TextAction::Refused(Problem::Unread(fault)) => explained(
            alloc, name, explainer, cut, fault,
        ),
        _ => Ok(Vec::new(alloc)),
    }
}
