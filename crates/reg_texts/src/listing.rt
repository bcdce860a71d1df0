//! The listing of texts.

ghost use Rattle.std.specs.Prelude.{◌≡◌, ◌++◌, List, ℕ, map, IfOk, OnOk};
ghost use Rattle.std.specs.List.{prefix_len, flat_map, list_any};
ghost use Rattle.crs_value.specs.declared.crs.Crs.{Crs};
ghost use Rattle.wkt_crs.specs.Spells.{Spells, pretty};
ghost use Rattle.reg_texts.specs.Said.{said};
ghost use Rattle.reg_texts.specs.Listing.{IsListing, IsBlock, status_text, by_text, successor_text, names_successor, is_about, both_about};

use crate::key::{push_key, push_short_key};
use crate::saying::Saying;
use std::alloc::{AllocError, Global};
use wkt_crs::{read_crs, write_pretty};

/// For each text with a statement, in order: its key and its status, the indented text, and an empty line.
pub fn listing(alloc: Global, sayings: &[Saying]) -> Result<Vec<u8>, AllocError>
    ensures { IfOk result (λ text. IsListing (map said sayings.now) text.items) }
{
    let mut text = Vec::new(alloc);
    let mut at = 0;
    while let Some(first) = sayings.get(at) {
        let others = &sayings[at + 1..];
        let len = run_len(first, others);
        push_block(alloc, &mut text, first, &others[..len])?;
        at = at + 1 + len;
    }
    Ok(text)
}

// Whether both are about one text.
fn is_about(one: &Saying, other: &Saying) -> bool
    ensures { result ≡ both_about one.now other.now }
{
    one.text == other.text
}

/// How many of the first statements are about the text of this one.
pub fn run_len(first: &Saying, others: &[Saying]) -> usize
    ensures { result ≡ prefix_len (both_about first.now) others.now }
{
    others.iter().take_while(|s| is_about(first, s)).count()
}

fn push_block(
    alloc: Global,
    text: &mut Vec<u8>,
    first: &Saying,
    others: &[Saying],
) -> Result<(), AllocError>
    ensures { OnOk result ((block : List ℕ) × IsBlock (said first.now) (map said others.now) block × (text.new.items ≡ text.old.items ++ block)) }
{
    push_key(text, &first.key)?;
    text.push(b' ')?;
    push_status(alloc, text, first, others)?;
    text.push(b'\n')?;
    push_indented(alloc, text, first.text)?;
    text.extend_from_slice(b"\n\n")?;
    Ok(())
}

fn push_status(
    alloc: Global,
    text: &mut Vec<u8>,
    first: &Saying,
    others: &[Saying],
) -> Result<(), AllocError>
    ensures { OnOk result (text.new.items ≡ text.old.items ++ status_text (said first.now) (map said others.now)) }
{
    if first.valid {
        text.extend_from_slice(b"valid")?;
        return Ok(());
    }
    text.extend_from_slice(b"superseded")?;
    push_by(alloc, text, others)
}

// Appends the keys of successors, if some are named.
fn push_by(alloc: Global, text: &mut Vec<u8>, sayings: &[Saying]) -> Result<(), AllocError>
    ensures { OnOk result (text.new.items ≡ text.old.items ++ by_text (map said sayings.now)) }
{
    if !is_any_named(sayings) {
        return Ok(());
    }
    text.extend_from_slice(b" by")?;
    push_successors(alloc, text, sayings)
}

fn is_any_named(sayings: &[Saying]) -> bool
    ensures { result ≡ list_any names_successor (map said sayings.now) }
{
    for saying in sayings {
        if is_named(saying) {
            return true;
        }
    }
    false
}

fn is_named(saying: &Saying) -> bool
    ensures { result ≡ names_successor (said saying.now) }
{
    saying.by.is_some()
}

/// Appends the keys of successors, each after a space and cut after 200 characters.
pub fn push_successors(
    alloc: Global,
    text: &mut Vec<u8>,
    sayings: &[Saying],
) -> Result<(), AllocError>
    ensures { OnOk result (text.new.items ≡ text.old.items ++ flat_map successor_text (map said sayings.now)) }
{
    for saying in sayings {
        push_successor(alloc, text, saying)?;
    }
    Ok(())
}

fn push_successor(alloc: Global, text: &mut Vec<u8>, saying: &Saying) -> Result<(), AllocError>
    ensures { OnOk result (text.new.items ≡ text.old.items ++ successor_text (said saying.now)) }
{
    match saying.by {
        Some(key) => {
            text.push(b' ')?;
            push_short_key(alloc, text, &key)?;
            Ok(())
        }
        None => Ok(()),
    }
}

// Appends the indented text. The text of a definition spells a value, so this fails only if memory runs out.
fn push_indented(alloc: Global, text: &mut Vec<u8>, canonical: &[u8]) -> Result<(), AllocError>
    ensures { OnOk result ((crs : Crs) × Spells canonical.now crs × (text.new.items ≡ text.old.items ++ pretty crs)) }
{
    let Ok(crs) = read_crs(alloc, canonical) else {
        return Err(AllocError);
    };
    let indented = write_pretty(alloc, &crs)?;
    text.extend_from_slice(&indented)?;
    Ok(())
}
