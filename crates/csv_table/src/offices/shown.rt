//! Texts with names in the place of UUIDs.

ghost use Rattle.std.specs.Prelude.{◌≡◌, ◌++◌, ◌∷◌, IfOk, OnOk, List, ℕ, take, drop, option_map};
ghost use Rattle.csv_table.specs.declared.offices.names.Name.{Name as Row};
ghost use Rattle.csv_table.specs.Standing.{given_in};
ghost use Rattle.csv_table.specs.Shown.{is_gap, ends, found, put, put_name, left_out, shown_from, shown};

use crate::offices::names::Name;
use crate::offices::standing::Names;
use std::alloc::{AllocError, Global};

/// The text with names in the place of the UUIDs of offices. With `keeps`, the UUID follows its name in parentheses.
pub fn named(alloc: Global, keeps: bool, names: &[Name], text: &[u8]) -> Result<Vec<u8>, AllocError>
    ensures { IfOk result (λ out. out.items ≡ shown keeps names.now text.now) }
{
    let names = Names::listed(names);
    named_in(alloc, keeps, &names, text)
}

/// The same, one of many texts.
pub fn named_in(
    alloc: Global,
    keeps: bool,
    names: &Names<'_>,
    text: &[u8],
) -> Result<Vec<u8>, AllocError>
    ensures { IfOk result (λ out. out.items ≡ shown keeps names.now text.now) }
{
    let mut out = Vec::new(alloc);
    let mut rest = text;
    let mut skip = 0;
    let mut starts = true;
    while let Some((byte, others)) = rest.split_first() {
        skip = push_next(&mut out, keeps, names, rest, *byte, skip, starts)?;
        starts = is_gap(*byte);
        rest = others;
    }
    Ok(out)
}

#[tactic(auto, using(crate::proofs::ShownLemmas::skipped, crate::proofs::ShownLemmas::taken))]
// Appends what stands in the place of the first byte, unless it is left out, and returns how many bytes after it are left out.
fn push_next(
    out: &mut Vec<u8>,
    keeps: bool,
    names: &Names<'_>,
    rest: &[u8],
    byte: u8,
    skip: usize,
    starts: bool,
) -> Result<usize, AllocError>
    ensures { IfOk result (λ next. (bs : List ℕ) → rest.now ≡ byte ∷ bs → out.new.items ++ shown_from bs next (is_gap byte) keeps names.now ≡ out.old.items ++ shown_from rest.now skip starts keeps names.now) }
{
    if skip > 0 {
        return Ok(skip - 1);
    }
    push_here(out, keeps, names, rest, byte, starts)
}

// Appends what stands in the place of the first byte, and returns how many bytes after it are left out.
fn push_here(
    out: &mut Vec<u8>,
    keeps: bool,
    names: &Names<'_>,
    rest: &[u8],
    byte: u8,
    starts: bool,
) -> Result<usize, AllocError>
    ensures next { IfOk result (λ next. next ≡ left_out (found names.now rest.now starts)) }
    ensures put { OnOk result (out.new.items ≡ out.old.items ++ put keeps (found names.now rest.now starts) byte) }
{
    match found(names, rest, starts) {
        Some(name) => {
            let (office, _) = split(rest);
            push_name(out, keeps, name, office)?;
            Ok(office.len().saturating_sub(1))
        }
        None => {
            out.push(byte)?;
            Ok(0)
        }
    }
}

fn push_name(out: &mut Vec<u8>, keeps: bool, name: &[u8], office: &[u8]) -> Result<(), AllocError>
    ensures { OnOk result (out.new.items ≡ out.old.items ++ put_name keeps name.now office.now) }
{
    out.extend_from_slice(name)?;
    if !keeps {
        return Ok(());
    }
    out.extend_from_slice(b" (")?;
    out.extend_from_slice(office)?;
    out.push(b')')?;
    Ok(())
}

// What a UUID at the beginning of the text would be, and what is behind it.
fn split(text: &[u8]) -> (&[u8], &[u8])
    ensures { (result.0.now ≡ take 36 text.now) × (result.1.now ≡ drop 36 text.now) }
{
    if text.len() < 36 {
        return text.split_at(text.len());
    }
    text.split_at(36)
}

// The name at the beginning of the text, if a word begins there.
fn found<'n>(names: &Names<'n>, text: &[u8], starts: bool) -> Option<&'n [u8]>
    ensures { given_in result ≡ option_map (λ (n : Row). n.name.items) (found names.now text.now starts) }
{
    if !starts {
        return None;
    }
    let (office, rest) = split(text);
    if !ends(rest) {
        return None;
    }
    names.name_of(office)
}

fn ends(rest: &[u8]) -> bool
    ensures { result ≡ ends rest.now }
{
    match rest.split_first() {
        Some((byte, _)) => is_gap(*byte) || *byte == b',' || *byte == b':',
        None => true,
    }
}

fn is_gap(byte: u8) -> bool
    ensures { result ≡ is_gap byte }
{
    byte == b' ' || byte == b'\n'
}
