//! A text of a file: its version in a diff, and the lines that it adds if no entry has its key.

ghost use Rattle.std.specs.Prelude.{◌≡◌, ◌++◌, decimal, IfOk, OnOk};
ghost use Rattle.reg_texts.specs.Given.{IsGivenHead, IsGiven, IsNoHead, IsNew};

use crate::key::{push_key, push_on_line};
use crate::version::{Version, indented, push_head};
use itoa::Buffer;
use reg_report::key_in;
use std::alloc::{AllocError, Global};
use wkt_compare::added;
use wkt_crs::Definition;

/// The text of a definition, named by its key, its file and its place there.
pub fn given(
    alloc: Global,
    name: &[u8],
    place: usize,
    definition: &Definition,
) -> Result<Version, AllocError>
    ensures { IfOk result (IsGiven name.now place definition.now) }
{
    let head = given_head(alloc, name, place, definition)?;
    let text = indented(alloc, definition)?;
    Ok(Version { head, text })
}

fn given_head(
    alloc: Global,
    name: &[u8],
    place: usize,
    definition: &Definition,
) -> Result<Vec<u8>, AllocError>
    ensures { IfOk result (λ head. IsGivenHead name.now place definition.now head.items) }
{
    let mut head = Vec::new(alloc);
    push_key(&mut head, &key_in(definition))?;
    head.push(b' ')?;
    push_on_line(&mut head, name)?;
    head.extend_from_slice(b" at ")?;
    push_number(&mut head, place)?;
    Ok(head)
}

fn push_number(text: &mut Vec<u8>, number: usize) -> Result<(), AllocError>
    ensures { OnOk result (text.new.items ≡ text.old.items ++ decimal number) }
{
    let mut buffer = Buffer::new();
    text.extend_from_slice(buffer.format(number).as_bytes())?;
    Ok(())
}

// The header line, if no entry has the key.
fn no_head(alloc: Global, definition: &Definition) -> Result<Vec<u8>, AllocError>
    ensures { IfOk result (λ head. IsNoHead definition.now head.items) }
{
    let mut head = Vec::new(alloc);
    push_key(&mut head, &key_in(definition))?;
    head.extend_from_slice(b" none")?;
    Ok(head)
}

/// The text as a diff that adds each of its lines, for a definition whose key no entry has.
pub fn new_text(
    alloc: Global,
    definition: &Definition,
    given: &Version,
) -> Result<Vec<u8>, AllocError>
    ensures { IfOk result (λ text. IsNew definition.now given.now text.items) }
{
    let hunks = added(alloc, &given.text)?;
    let head = no_head(alloc, definition)?;
    let mut text = Vec::new(alloc);
    push_head(&mut text, b"--- ", &head)?;
    push_head(&mut text, b"+++ ", &given.head)?;
    text.extend_from_slice(&hunks)?;
    Ok(text)
}
