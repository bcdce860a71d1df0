//! The texts of files, which an import takes one after another.

ghost use Rattle.std.specs.Prelude.{◌≡◌, [], ℕ, List, false, not, ◌&&◌, IfOk};
ghost use Rattle.reg_op.specs.Contents.{Content};
ghost use Rattle.reg_import.specs.declared.reading.FileText.{FileText};
ghost use Rattle.reg_import.specs.declared.action.TextAction.{TextAction};
ghost use Rattle.reg_import.specs.Readings.{is_unread};
ghost use Rattle.reg_desk.specs.Import.{names_of};
ghost use Rattle.reg_desk.specs.ImportFiles.{bytes_of};
ghost use Rattle.reg_desk.specs.ImportTexts.{TextAt, text_at};
ghost use Rattle.reg_desk.specs.ImportNotes.{name_of, content_of};
ghost use Rattle.reg_desk.specs.ImportProgress.{HasCome, OneMore, FileCome, AllCome};

use crate::import::notes::name_of;
use crate::import::options::ImportOptions;
use crate::import::progress::{Progress, taken};
use reg_import::{ReadText, read_at};
use std::alloc::{AllocError, Global};
use wkt_compare::splitting::{Cut, begin, next_text};
use wkt_explain::Explainer;

/// A text: the index of its file, from 0, the offset of its first byte there, and its bytes.
#[derive(Clone, Copy)]
pub struct FileCut<'a> {
    pub file: usize,
    pub place: usize,
    pub bytes: &'a [u8],
}

// Whether an import ends at a text with this reading, whatever the register is.
fn ends_at(keep_going: bool, reading: &ReadText) -> bool
    ensures { result ≡ (not keep_going && is_unread reading.now) }
{
    !keep_going && reading.is_unread()
}

// Takes a text, of the file that the explainer has.
fn take_text(
    alloc: Global,
    options: &ImportOptions<'_>,
    name: &str,
    explainer: &mut Explainer<'_>,
    cut: &FileCut<'_>,
    progress: Progress,
) -> Result<Progress, AllocError>
    ensures come { IfOk result (λ p. (x : Content) (files : List (List ℕ)) (cuts : List TextAt) (texts : List FileText) (ts : List TextAction)
        → HasCome options.now x files cuts texts ts progress → name.now ≡ name_of (names_of options.now) cut.now.file → explainer.old ≡ content_of files cut.now.file
        → OneMore options.now x files (text_at cut.now) cuts texts ts p) }
    ensures file { explainer.new ≡ explainer.old }
{
    let text = read_at(alloc, cut.file, cut.place, cut.bytes)?;
    let ends = ends_at(options.keep_going, &text.reading);
    let progress = taken(alloc, options, name, explainer, cut, text, ends, progress)?;
    Ok(progress)
}

// Takes the texts of a file, up to one at which the import ends.
fn take_file(
    alloc: Global,
    options: &ImportOptions<'_>,
    file: usize,
    bytes: &[u8],
    progress: Progress,
) -> Result<Progress, AllocError>
    ensures { IfOk result (λ p. (x : Content) (files : List (List ℕ)) (cuts : List TextAt) (texts : List FileText) (ts : List TextAction)
        → HasCome options.now x files cuts texts ts progress → bytes.now ≡ content_of files file → progress.ends ≡ false → FileCome options.now x files file bytes.now cuts texts ts p) }
{
    let name = name_of(options.names, file);
    let mut explainer = Explainer::new(bytes);
    let mut progress = progress;
    let mut place = begin(bytes);
    let mut rest = &bytes[place..];
    while let Some((cut, later)) = next_text(place, rest) {
        let this = FileCut {
            file,
            place: cut.place,
            bytes: cut.bytes,
        };
        progress = take_text(alloc, options, name, &mut explainer, &this, progress)?;
        if progress.ends {
            return Ok(progress);
        }
        place = cut.place + cut.bytes.len();
        rest = later;
    }
    Ok(progress)
}

/// Takes the texts of the files, in order, up to one at which the import ends: unless refused texts are passed over, the first that is
/// no definition.
pub fn take_texts(
    alloc: Global,
    options: &ImportOptions<'_>,
    files: &[Vec<u8>],
    progress: Progress,
) -> Result<Progress, AllocError>
    ensures { IfOk result (λ p. (x : Content) → HasCome options.now x (bytes_of files.now) [] [] [] progress → progress.ends ≡ false → AllCome options.now x (bytes_of files.now) p) }
{
    let mut progress = progress;
    for (file, bytes) in files.iter().enumerate() {
        progress = take_file(alloc, options, file, bytes, progress)?;
        if progress.ends {
            return Ok(progress);
        }
    }
    Ok(progress)
}
