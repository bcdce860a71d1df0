//! Claims about first identifiers.

ghost use Rattle.std.specs.Prelude.{◌≡◌, ◌++◌, ◌∷◌, [], map, IfOk, OnOk};
ghost use Rattle.crs_value.specs.Keys.{text_of};
ghost use Rattle.crs_said.specs.Claims.{claim_seen};
ghost use Rattle.crs_said.specs.Parts.{id_word, part_said, id_said, id_claim};

use crate::claim::{Claim, push_claim};
use crate::fields::{push_end, push_field};
use crs_exact::number;
use crs_part::{Ident, NumberOrText, Text};
use std::alloc::{AllocError, Global};

/// Most words have fewer bytes than these.
pub(crate) const WORD: usize = 24;

/// Most parts say fewer bytes than these.
pub(crate) const CONTENT: usize = 64;

/// Most sentences have fewer bytes than these beside a name.
const SENTENCE: usize = 88;

/// Claims that an identifier has this content.
pub(crate) fn push_id(
    alloc: Global,
    claims: &mut Vec<Claim>,
    kind: &[u8],
    name: &Text,
    content: Vec<u8>,
    id: &Ident,
) -> Result<(), AllocError>
    ensures { OnOk result (map claim_seen claims.new.items ≡ map claim_seen claims.old.items ++ id_claim kind.now name.now.bytes content.items id.now ∷ []) }
{
    let word = id_word(alloc, kind, id)?;
    let said = id_said(alloc, kind, name, id)?;
    push_claim(
        claims,
        Claim {
            word,
            content,
            said,
        },
    )
}

fn id_word(alloc: Global, kind: &[u8], id: &Ident) -> Result<Vec<u8>, AllocError>
    ensures { IfOk result (λ text. text.items ≡ id_word kind.now id.now) }
{
    let mut word = Vec::with_capacity(alloc, WORD)?;
    push_code_text(&mut word, &id.code)?;
    push_end(&mut word)?;
    push_field(&mut word, id.authority.as_bytes())?;
    word.extend_from_slice(kind)?;
    Ok(word)
}

// The text is made in one piece of memory.
fn id_said(alloc: Global, kind: &[u8], name: &Text, id: &Ident) -> Result<Vec<u8>, AllocError>
    ensures { IfOk result (λ text. text.items ≡ id_said kind.now name.now.bytes id.now) }
{
    let mut text = Vec::with_capacity(alloc, name.as_bytes().len().saturating_add(SENTENCE))?;
    push_part_said(&mut text, kind, name.as_bytes())?;
    text.extend_from_slice(b" has the identifier ")?;
    text.extend_from_slice(id.authority.as_bytes())?;
    text.push(b':')?;
    push_code_text(&mut text, &id.code)?;
    text.extend_from_slice(b" and another content than")?;
    Ok(text)
}

fn push_part_said(out: &mut Vec<u8>, kind: &[u8], name: &[u8]) -> Result<(), AllocError>
    ensures { OnOk result (out.new.items ≡ out.old.items ++ part_said kind.now name.now) }
{
    out.extend_from_slice(b"the ")?;
    out.extend_from_slice(kind)?;
    out.extend_from_slice(b" \"")?;
    out.extend_from_slice(name)?;
    out.push(b'"')?;
    Ok(())
}

// Appends the text of a code.
fn push_code_text(out: &mut Vec<u8>, code: &NumberOrText) -> Result<(), AllocError>
    ensures { OnOk result (out.new.items ≡ out.old.items ++ text_of code.now) }
{
    match code {
        NumberOrText::Number(value) => value.write_to(out),
        NumberOrText::Text(text) => out.extend_from_slice(text.as_bytes()),
    }
}

/// The text of a code.
pub(crate) fn code_said(alloc: Global, code: &NumberOrText) -> Result<Vec<u8>, AllocError>
    ensures { IfOk result (λ text. text.items ≡ text_of code.now) }
{
    match code {
        NumberOrText::Number(value) => number(alloc, *value),
        NumberOrText::Text(text) => Vec::from_slice(alloc, text.as_bytes()),
    }
}
