//! The kind of an argument, as far as rows distinguish it.

ghost use Rattle.std.specs.Prelude.{◌≡◌, ◌≤◌, drop, length};
ghost use Rattle.wkt_grammar.specs.Rows.{row_in, row_of};
ghost use Rattle.wkt_grammar.specs.Slots.{argument_of, node_argument, word_argument};
ghost use Rattle.wkt_grammar.specs.First.{refusal};

use crate::choice::enters;
use crate::fault::SlotFault;
use crate::rows::row_of;
use crate::table::{Argument, Edition, Keyword, Node};
use crate::walk::{RowPosition, step};
use crate::words::{is_cs_kind, is_direction, keyword_of};
use crs_number::is_count;
use wkt_tree::TokenKind;

fn word_argument(bytes: &[u8]) -> Argument
    ensures { result ≡ word_argument bytes.now }
{
    if is_cs_kind(bytes) {
        Argument::CsKind
    } else if is_direction(bytes) {
        Argument::Direction
    } else {
        Argument::OtherWord
    }
}

fn node_argument(bytes: &[u8]) -> Argument
    ensures { result ≡ node_argument bytes.now }
{
    match keyword_of(bytes) {
        Some(keyword) => Argument::Node(keyword),
        None => Argument::OtherNode,
    }
}

/// The kind of argument that begins with this token.
pub fn argument_of(kind: TokenKind, bytes: &[u8], is_node: bool) -> Argument
    ensures { result ≡ argument_of kind bytes.now is_node }
{
    match kind {
        TokenKind::Quoted => Argument::Text,
        TokenKind::Number => {
            if is_count(bytes) {
                Argument::Count
            } else {
                Argument::Number
            }
        }
        TokenKind::Word => {
            if is_node {
                node_argument(bytes)
            } else {
                word_argument(bytes)
            }
        }
        TokenKind::Comma => Argument::OtherNode,
        TokenKind::Open(_) => Argument::OtherNode,
        TokenKind::Close(_) => Argument::OtherNode,
    }
}

/// The fault of an argument that the row refuses here.
pub fn refusal(
    edition: Edition,
    node: Node,
    place: RowPosition,
    argument: Argument,
    at: usize,
) -> SlotFault
    requires { place.slot ≤ length (row_of edition node) }
    ensures { result ≡ refusal (drop place.slot (row_of edition node)) place.filled argument at }
{
    let row = row_of(edition, node);
    let count = step(row, place, Argument::Count).is_some();
    let kind = step(row, place, Argument::CsKind).is_some();
    let direction = step(row, place, Argument::Direction).is_some();
    match argument {
        Argument::Number | Argument::Count => {
            if count {
                SlotFault::NotCount(at)
            } else {
                SlotFault::NotHere(at)
            }
        }
        Argument::CsKind | Argument::Direction | Argument::OtherWord => {
            if kind || direction {
                SlotFault::WordUnknown(at)
            } else {
                SlotFault::NotHere(at)
            }
        }
        Argument::Text | Argument::Node(_) | Argument::OtherNode => SlotFault::NotHere(at),
    }
}

/// The row of a node with this keyword as an argument. It is found at once if the slot takes it.
pub fn row_in(edition: Edition, node: Node, slot: usize, keyword: Keyword) -> Option<Node>
    ensures { result ≡ row_in (row_of edition node) keyword }
{
    let row = row_of(edition, node);
    if slot < row.len() {
        if let Some(inner) = enters(row[slot].takes, keyword) {
            return Some(inner);
        }
    }
    let mut i = 0;
    while i < row.len() {
        if let Some(inner) = enters(row[i].takes, keyword) {
            return Some(inner);
        }
        i += 1;
    }
    None
}
