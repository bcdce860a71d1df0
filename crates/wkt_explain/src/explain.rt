//! The explanation of a refusal.

ghost use Rattle.std.specs.Prelude.{◌≡◌, ◌++◌, ◌+◌, ◌∷◌, ◌≤◌, [], ℕ, List, take, drop, length, map, min, decimal, Option, IfOk, OnOk};
ghost use Rattle.std.specs.List.{flat_map};
ghost use Rattle.wkt_explain.specs.Characters.{chars};
ghost use Rattle.wkt_explain.specs.Position.{behind_mark};
ghost use Rattle.wkt_explain.specs.Shown.{shown_lines};
ghost use Rattle.wkt_explain.specs.Walk.{IsSpot};
ghost use Rattle.wkt_explain.specs.Wanted.{sentence_in};
ghost use Rattle.wkt_explain.specs.Explains.{explanation, hint_line, last_of, path_words, place_words, said, step_words, told_at};

use crate::hints::{Hint, hint_of};
use crate::path::path_at;
use crate::position::{MARK, begins_mark, behind_mark, text_in};
use crate::shown::push_lines;
use crate::walk::{Spot, Walk};
use crate::wanted::push_sentence;
use std::alloc::{AllocError, Global};
use std::marker::Model;
use wkt_crs::DefinitionFault;

// The place of the fault in the text; 0 if it has none.
fn told_at(text: &[u8], fault: DefinitionFault) -> usize
    ensures { result ≡ told_at text.now fault }
{
    fault.place().unwrap_or(0).min(text.len())
}

fn push_number(alloc: Global, out: &mut Vec<u8>, number: usize) -> Result<(), AllocError>
    ensures { OnOk result (out.new.items ≡ out.old.items ++ decimal number) }
{
    let digits = number.to_string(alloc)?;
    out.extend_from_slice(digits.as_bytes())
}

fn push_place(
    alloc: Global,
    out: &mut Vec<u8>,
    name: &str,
    line: usize,
    column: usize,
) -> Result<(), AllocError>
    ensures { OnOk result (out.new.items ≡ out.old.items ++ place_words name.now line column) }
{
    out.extend_from_slice(name.as_bytes())?;
    out.push(b':')?;
    push_number(alloc, out, line)?;
    out.push(b':')?;
    push_number(alloc, out, column)?;
    out.extend_from_slice(b": ")?;
    Ok(())
}

fn push_steps(out: &mut Vec<u8>, words: &[Vec<u8>]) -> Result<(), AllocError>
    ensures { OnOk result (out.new.items ≡ out.old.items ++ flat_map step_words (map (λ w. w.items) words.now)) }
{
    let mut rest = words;
    while let Some((word, others)) = rest.split_first() {
        out.extend_from_slice(b" > ")?;
        out.extend_from_slice(word)?;
        rest = others;
    }
    Ok(())
}

fn push_path(out: &mut Vec<u8>, path: &[Vec<u8>]) -> Result<(), AllocError>
    ensures { OnOk result (out.new.items ≡ out.old.items ++ path_words (map (λ w. w.items) path.now)) }
{
    let Some((first, others)) = path.split_first() else {
        return Ok(());
    };
    out.extend_from_slice(b"in ")?;
    out.extend_from_slice(first)?;
    push_steps(out, others)?;
    out.extend_from_slice(b": ")?;
    Ok(())
}

// The last of some words, or the empty word.
fn last_of(words: &[Vec<u8>]) -> &[u8]
    ensures { result.now ≡ last_of [] (map (λ w. w.items) words.now) }
{
    let mut last: &[u8] = b"";
    let mut rest = words;
    while let Some((word, others)) = rest.split_first() {
        last = word.as_slice();
        rest = others;
    }
    last
}

// Appends the nodes around the fault, and the sentence for it.
fn push_fault(out: &mut Vec<u8>, path: &[Vec<u8>], fault: DefinitionFault) -> Result<(), AllocError>
    ensures { OnOk result (out.new.items ≡ out.old.items ++ path_words (map (λ w. w.items) path.now) ++ sentence_in (map (λ w. w.items) path.now) fault ++ 10 ∷ []) }
{
    push_path(out, path)?;
    push_sentence(out, path, fault)?;
    out.push(b'\n')?;
    Ok(())
}

fn push_hint(out: &mut Vec<u8>, hint: Option<Hint>) -> Result<(), AllocError>
    ensures { OnOk result (out.new.items ≡ out.old.items ++ hint_line hint) }
{
    let Some(hint) = hint else {
        return Ok(());
    };
    out.extend_from_slice(b"hint: ")?;
    out.extend_from_slice(hint.text().as_bytes())?;
    out.push(b'\n')?;
    Ok(())
}

// The explanation of a fault of this text, at a place of its file, in these nodes.
fn said(
    alloc: Global,
    name: &str,
    spot: Spot<'_>,
    path: &[Vec<u8>],
    text: &[u8],
    fault: DefinitionFault,
) -> Result<Vec<u8>, AllocError>
    ensures { IfOk result (λ note. note.items ≡ said name.now spot.entry.line spot.entry.column (map (λ w. w.items) path.now)
        (shown_lines (chars spot.entry.before.now) (chars spot.entry.after.now)) text.now fault) }
{
    let mut note = Vec::new(alloc);
    push_place(alloc, &mut note, name, spot.line, spot.column)?;
    push_fault(&mut note, path, fault)?;
    push_lines(&mut note, spot.before, spot.after)?;
    push_hint(&mut note, hint_of(text, last_of(path), fault))?;
    Ok(note)
}

/// Explains why texts of a file are refused. It continues from the place of the last text, so explaining texts in their
/// order takes one pass through the file. A text that begins before the last one takes another pass.
#[derive(Drop)]
pub struct Explainer<'f> {
    file: &'f [u8],
    walk: Walk<'f>,
    ghost behind: { walk.file.now ≡ behind_mark file.now },
}

impl<'f> Model for Explainer<'f> {
    ghost Value = { List ℕ };

    ghost view = { λ e. e.file.now };
}

impl<'f> Explainer<'f> {
    /// An explainer for a file with these bytes.
    pub fn new(file: &'f [u8]) -> Explainer<'f>
        ensures { result ≡ file.now }
    {
        Explainer {
            file,
            walk: Walk::new(behind_mark(file)),
        }
    }

    // The place in the file of a place in a text that begins at `start`; at most the end of the file.
    fn place(&self, start: usize, at: usize) -> usize
        ensures { result ≡ min (start + at) (length self.now) }
    {
        start.saturating_add(at).min(self.file.len())
    }

    // Advances to a place of the file. The walk goes through the file behind a byte order mark, so that this is in no column.
    fn go(&mut self, place: usize) -> Spot<'f>
        requires { place ≤ length self.old }
        ensures spot { IsSpot result (behind_mark (take place self.old)) (drop place self.old) }
        ensures file { self.new ≡ self.old }
    {
        if !begins_mark(self.file) {
            return self.walk.go(place);
        }
        if place < MARK {
            let mut walk = Walk::new(self.file);
            return walk.go(place);
        }
        self.walk.go(place - MARK)
    }

    /// The explanation of the fault of the text from `start` up to `end` in the file with this name: its place, the
    /// keywords of the nodes around it, and what is wrong; then the line, with a caret; then a hint, if there is one.
    pub fn explain(
        &mut self,
        alloc: Global,
        name: &str,
        start: usize,
        end: usize,
        fault: DefinitionFault,
    ) -> Result<Vec<u8>, AllocError>
        ensures note { IfOk result (λ note. note.items ≡ explanation name.now self.old start end fault) }
        ensures file { self.new ≡ self.old }
    {
        let text = text_in(self.file, start, end);
        let at = told_at(text, fault);
        let (read, _) = text.split_at(at);
        let path = path_at(alloc, read)?;
        let place = self.place(start, at);
        let spot = self.go(place);
        said(alloc, name, spot, &path, text, fault)
    }
}

/// The explanation of the fault of the text from `start` up to `end` in the file with this name.
pub fn explain_within(
    alloc: Global,
    name: &str,
    file: &[u8],
    start: usize,
    end: usize,
    fault: DefinitionFault,
) -> Result<Vec<u8>, AllocError>
    ensures { IfOk result (λ note. note.items ≡ explanation name.now file.now start end fault) }
{
    Explainer::new(file).explain(alloc, name, start, end, fault)
}

/// The same for a text that fills the file.
pub fn explain_text(
    alloc: Global,
    name: &str,
    text: &[u8],
    fault: DefinitionFault,
) -> Result<Vec<u8>, AllocError>
    ensures { IfOk result (λ note. note.items ≡ explanation name.now text.now 0 (length text.now) fault) }
{
    explain_within(alloc, name, text, 0, text.len(), fault)
}
