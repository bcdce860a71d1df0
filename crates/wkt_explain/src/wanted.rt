//! What can stand in a node.

ghost use Rattle.std.specs.Prelude.{◌≡◌, ◌++◌, map, OnOk};
ghost use Rattle.std.specs.List.{flat_map};
ghost use Rattle.wkt_grammar.specs.Rows.{row_in};
ghost use Rattle.wkt_explain.specs.Wanted.{each_words, entered, inner, innermost, is_not_here, not_here_sentence, only_words, sentence_in, slot_words, slots_in, slots_of, slots_words, taken};

use crate::sentences::sentence;
use std::alloc::AllocError;
use wkt_crs::{DefinitionFault, SlotFault, Unspelled};
use wkt_grammar::{Edition, Keyword, Node, Slot, Takes, enters, keyword_of, row_of};

// The row that a node with this keyword has as an argument of this row.
fn row_in(row: &[Slot], keyword: Keyword) -> Option<Node>
    ensures { result ≡ row_in row.now keyword }
{
    let mut rest = row;
    while let Some((slot, others)) = rest.split_first() {
        if let Some(node) = enters(slot.takes, keyword) {
            return Some(node);
        }
        rest = others;
    }
    None
}

fn entered(keyword: Option<Keyword>, row: &[Slot]) -> Option<Node>
    ensures { result ≡ entered keyword row.now }
{
    match keyword {
        Some(keyword) => row_in(row, keyword),
        None => None,
    }
}

fn inner(node: Option<Node>, word: &[u8]) -> Option<Node>
    ensures { result ≡ inner node word.now }
{
    match node {
        Some(node) => entered(keyword_of(word), row_of(Edition::Second, node)),
        None => None,
    }
}

// The row of the innermost of these nodes, each in the one before.
fn innermost(path: &[Vec<u8>]) -> Option<Node>
    ensures { result ≡ innermost (Some Node.Root) (map (λ w. w.items) path.now) }
{
    let mut node = Some(Node::Root);
    let mut rest = path;
    while let Some((word, others)) = rest.split_first() {
        node = inner(node, word);
        rest = others;
    }
    node
}

fn slots_of(node: Option<Node>) -> &'static [Slot]
    ensures { result.now ≡ slots_of node }
{
    match node {
        Some(node) => row_of(Edition::Second, node),
        None => &[],
    }
}

fn taken(takes: Takes) -> &'static [u8]
    ensures { result.now ≡ taken takes }
{
    match takes {
        Takes::Text => b"a text",
        Takes::Number => b"a number",
        Takes::NumberOrText => b"a number or a text",
        Takes::Count => b"a whole number",
        Takes::CsKind => b"a kind of coordinate system",
        Takes::Direction => b"a direction",
        Takes::SingleCrs => b"GEOGCRS or GEODCRS or PROJCRS or VERTCRS",
        Takes::AnyCrs => b"GEOGCRS or GEODCRS or PROJCRS or VERTCRS or COMPOUNDCRS",
        Takes::GeodeticDatum => b"DATUM or ENSEMBLE",
        Takes::VerticalDatum => b"VDATUM or ENSEMBLE",
        Takes::BaseCrs => b"BASEGEOGCRS or BASEGEODCRS",
        Takes::LengthUnit => b"LENGTHUNIT or UNIT",
        Takes::AngleUnit => b"ANGLEUNIT or UNIT",
        Takes::AnyUnit => b"LENGTHUNIT or ANGLEUNIT or SCALEUNIT or UNIT",
        Takes::Node(keyword, _) => keyword.spelling(),
    }
}

fn push_slots(out: &mut Vec<u8>, slots: &[Slot]) -> Result<(), AllocError>
    ensures { OnOk result (out.new.items ≡ out.old.items ++ flat_map slot_words slots.now) }
{
    let mut rest = slots;
    while let Some((slot, others)) = rest.split_first() {
        out.extend_from_slice(b", ")?;
        out.extend_from_slice(taken(slot.takes))?;
        rest = others;
    }
    Ok(())
}

fn push_only(out: &mut Vec<u8>, slot: Slot) -> Result<(), AllocError>
    ensures { OnOk result (out.new.items ≡ out.old.items ++ only_words slot) }
{
    out.extend_from_slice(b"this cannot stand here; all that can is ")?;
    out.extend_from_slice(taken(slot.takes))?;
    Ok(())
}

fn push_each(out: &mut Vec<u8>, first: Slot, others: &[Slot]) -> Result<(), AllocError>
    ensures { OnOk result (out.new.items ≡ out.old.items ++ each_words first others.now) }
{
    out.extend_from_slice(b"this cannot stand here; all that can is, in this order, ")?;
    out.extend_from_slice(taken(first.takes))?;
    push_slots(out, others)?;
    Ok(())
}

// What can stand in a node of this first slot and these others.
fn push_first(out: &mut Vec<u8>, first: Slot, others: &[Slot]) -> Result<(), AllocError>
    ensures { OnOk result (out.new.items ≡ out.old.items ++ slots_words first others.now) }
{
    match others.split_first() {
        Some(_) => push_each(out, first, others),
        None => push_only(out, first),
    }
}

// Appends the sentence for an argument that does not fit the innermost of these nodes.
fn push_not_here(out: &mut Vec<u8>, path: &[Vec<u8>]) -> Result<(), AllocError>
    ensures { OnOk result (out.new.items ≡ out.old.items ++ not_here_sentence (slots_in (map (λ w. w.items) path.now))) }
{
    let Some((first, others)) = slots_of(innermost(path)).split_first() else {
        out.extend_from_slice(b"nothing of this kind can stand here")?;
        return Ok(());
    };
    push_first(out, *first, others)
}

fn is_not_here(fault: DefinitionFault) -> bool
    ensures { result ≡ is_not_here fault }
{
    matches!(
        fault,
        DefinitionFault::Read(Unspelled::Slot(SlotFault::NotHere(_)))
    )
}

/// Appends the sentence for a fault in these nodes, without an end mark.
pub(crate) fn push_sentence(
    out: &mut Vec<u8>,
    path: &[Vec<u8>],
    fault: DefinitionFault,
) -> Result<(), AllocError>
    ensures { OnOk result (out.new.items ≡ out.old.items ++ sentence_in (map (λ w. w.items) path.now) fault) }
{
    if is_not_here(fault) {
        return push_not_here(out, path);
    }
    out.extend_from_slice(sentence(fault).as_bytes())
}
