//! The files of texts with keys.

ghost use Rattle.std.specs.Prelude.{◌≡◌, ℕ, map, IfOk};
ghost use Rattle.std.specs.Global.{Vec};
ghost use Rattle.byte_folder.specs.Folder.{seen, is_long};
ghost use Rattle.reg_export.specs.KeyFiles.{keyed, plain_name, lower, capitals_if, file_with, file_in, fitting, AreInOrder, AreFilesOf};
ghost use Rattle.reg_export.specs.Twins.{At, Holds, has_several, file_at};

use crate::naming::{Capitals, file_name};
use crate::twins::{NameTwin, has_several, notes_of};
use byte_folder::NamedFile;
use std::alloc::{AllocError, Global};
use std::collections::BTreeMap;

/// The greatest length of a file's name.
const MAX_NAME: usize = 255;

/// A text, and its key.
#[derive(Clone, Copy)]
pub struct Keyed<'a> {
    pub authority: &'a [u8],
    pub code: &'a [u8],
    pub text: &'a [u8],
}

fn plain_name(alloc: Global, text: &Keyed<'_>) -> Result<Vec<u8>, AllocError>
    ensures { IfOk result (λ name. name.items ≡ plain_name (keyed text.now)) }
{
    file_name(alloc, Capitals::Stay, text.authority, text.code)
}

// The name of each text, with its capitals.
fn plain_names(alloc: Global, texts: &[Keyed<'_>]) -> Result<Vec<Vec<u8>>, AllocError>
    ensures { IfOk result (λ names. map (λ (n : Vec ℕ). n.items) names.items ≡ map plain_name (map keyed texts.now)) }
{
    let mut names = Vec::new(alloc);
    for text in texts {
        let name = plain_name(alloc, text)?;
        names.push(name)?;
    }
    Ok(names)
}

fn capitals_if(twin: bool) -> Capitals
    ensures { result ≡ capitals_if twin }
{
    if twin {
        Capitals::Escaped
    } else {
        Capitals::Stay
    }
}

// The capitals of a text's name are escaped if another name differs from it by case alone.
fn capitals_of(
    alloc: Global,
    notes: &BTreeMap<Vec<u8>, NameTwin<'_>>,
    text: &Keyed<'_>,
) -> Result<Capitals, AllocError>
    ensures { (at : At) → Holds notes.now at → IfOk result (λ capitals. capitals ≡ capitals_if (has_several (at (lower (plain_name (keyed text.now)))))) }
{
    let name = plain_name(alloc, text)?;
    let low = name.to_ascii_lowercase(alloc)?;
    Ok(capitals_if(has_several(notes, &low)))
}

// The file of a text: the name of its key, and the text with a newline.
fn file_with(alloc: Global, capitals: Capitals, text: &Keyed<'_>) -> Result<NamedFile, AllocError>
    ensures { IfOk result (λ file. seen file ≡ file_with capitals (keyed text.now)) }
{
    let name = file_name(alloc, capitals, text.authority, text.code)?;
    let mut bytes = Vec::with_capacity(alloc, text.text.len().saturating_add(1))?;
    bytes.extend_from_slice(text.text)?;
    bytes.push(b'\n')?;
    Ok(NamedFile { name, bytes })
}

fn file_by(
    alloc: Global,
    notes: &BTreeMap<Vec<u8>, NameTwin<'_>>,
    text: &Keyed<'_>,
) -> Result<NamedFile, AllocError>
    ensures { (at : At) → Holds notes.now at → IfOk result (λ file. seen file ≡ file_at at (keyed text.now)) }
{
    let capitals = capitals_of(alloc, notes, text)?;
    file_with(alloc, capitals, text)
}

// A file for each text.
fn files_by(
    alloc: Global,
    notes: &BTreeMap<Vec<u8>, NameTwin<'_>>,
    texts: &[Keyed<'_>],
) -> Result<Vec<NamedFile>, AllocError>
    ensures { (at : At) → Holds notes.now at → IfOk result (λ files. map seen files.items ≡ map (file_at at) (map keyed texts.now)) }
{
    let mut files = Vec::new(alloc);
    for text in texts {
        let file = file_by(alloc, notes, text)?;
        files.push(file)?;
    }
    Ok(files)
}

/// A file for each text, in the order of the texts. It has the name of the key, and the text with a newline. If the names of two
/// keys differ by case alone, the capitals of both are escaped.
pub fn each_file(alloc: Global, texts: &[Keyed<'_>]) -> Result<Vec<NamedFile>, AllocError>
    ensures { IfOk result (λ files. map seen files.items ≡ map (file_in (map keyed texts.now)) (map keyed texts.now)) }
{
    let names = plain_names(alloc, texts)?;
    let notes = notes_of(alloc, &names)?;
    let files = files_by(alloc, &notes, texts)?;
    Ok(files)
}

/// These files in the order of their names, each once.
pub fn in_order(files: Vec<NamedFile>) -> Vec<NamedFile>
    ensures { AreInOrder (map seen files.items) (map seen result.items) }
{
    let mut made = files;
    made.sort_unstable();
    made.dedup();
    made
}

/// Whether the file's name is too long for a folder: it has more than 255 bytes.
pub fn is_long(file: &NamedFile) -> bool
    ensures { result ≡ is_long (seen file.now) }
{
    MAX_NAME < file.name.len()
}

/// The files whose names are not too long, in their order.
pub fn fitting(files: Vec<NamedFile>) -> Vec<NamedFile>
    ensures { map seen result.items ≡ fitting (map seen files.items) }
{
    let mut made = files;
    made.retain(|file| !is_long(file));
    made
}
