//! The first slot fault, found by a walk over the tokens.

ghost use Rattle.std.specs.Prelude.{◌≡◌, ◌≤◌, drop, length, slice_get, IfOk, IfErr, OnOk, MatchResult};
ghost use Rattle.wkt_tree.specs.Cut.{cut};
ghost use Rattle.wkt_grammar.specs.Rows.{row_of};
ghost use Rattle.wkt_grammar.specs.Slots.{IsClean, IsFirst};
ghost use Rattle.wkt_grammar.specs.First.{AnswersItem, AnswersNode};
ghost use Rattle.wkt_grammar.specs.Next.{coming, is_comma, is_open, next_is, place_next};

use crate::argument::{argument_of, refusal, row_in};
use crate::fault::SlotFault;
use crate::rows::row_of;
use crate::table::{Argument, Edition, Node};
use crate::walk::{RowPosition, first_missing, step};
use wkt_tree::{Cursor, Outline, TokenKind};

/// Whether an opening delimiter follows.
pub fn next_is_open(cursor: &Cursor<'_>) -> bool
    ensures { result ≡ next_is is_open cursor.now }
{
    match cursor.peek() {
        Some(token) => match token.kind {
            TokenKind::Open(_) => true,
            _ => false,
        },
        None => false,
    }
}

/// Whether a comma follows.
pub fn next_is_comma(cursor: &Cursor<'_>) -> bool
    ensures { result ≡ next_is is_comma cursor.now }
{
    match cursor.peek() {
        Some(token) => match token.kind {
            TokenKind::Comma => true,
            _ => false,
        },
        None => false,
    }
}

/// The kind of the argument that begins with the next token.
pub fn coming(cursor: &Cursor<'_>) -> Argument
    ensures { result ≡ coming cursor.now }
{
    let mut behind = cursor.fork();
    behind.advance();
    match cursor.peek() {
        Some(token) => argument_of(token.kind, token.bytes, next_is_open(&behind)),
        None => Argument::OtherNode,
    }
}

fn next_place(cursor: &Cursor<'_>) -> usize
    ensures { result ≡ place_next cursor.now }
{
    match cursor.peek() {
        Some(token) => token.place,
        None => 0,
    }
}

/// Skips an argument, if the row of the node takes it and it has no fault inside.
#[cycle(tier)]
fn check_argument(
    edition: Edition,
    cursor: &mut Cursor<'_>,
    node: Node,
    place: RowPosition,
) -> Result<RowPosition, SlotFault>
    requires { place.slot ≤ length (row_of edition node) }
    ensures shorter { length cursor.new ≤ length cursor.old }
    ensures within { IfOk result (λ p. p.slot ≤ length (row_of edition node)) }
    ensures answers { AnswersItem edition node place cursor.old cursor.new result }
{
    let Some(token) = cursor.peek() else {
        return Ok(place);
    };
    cursor.advance();
    let is_node = next_is_open(cursor);
    let argument = argument_of(token.kind, token.bytes, is_node);
    let Some(next) = step(row_of(edition, node), place, argument) else {
        return Err(refusal(edition, node, place, argument, token.place));
    };
    if let Argument::Node(keyword) = argument {
        if let Some(inner) = row_in(edition, node, next.slot, keyword) {
            cursor.advance();
            if let Err(fault) = check_node(edition, cursor, inner) {
                return Err(fault);
            }
        }
    }
    Ok(next)
}

/// Skips the arguments of a node and its closing delimiter, if it has no fault.
#[cycle(tier)]
fn check_node(edition: Edition, cursor: &mut Cursor<'_>, node: Node) -> Result<(), SlotFault>
    ensures shorter { length cursor.new ≤ length cursor.old }
    ensures answers { AnswersNode edition node cursor.old cursor.new result }
{
    let start = RowPosition {
        slot: 0,
        filled: false,
    };
    let mut place = match check_argument(edition, cursor, node, start) {
        Ok(first) => first,
        Err(fault) => return Err(fault),
    };
    while next_is_comma(cursor) {
        cursor.advance();
        match check_argument(edition, cursor, node, place) {
            Ok(next) => place = next,
            Err(fault) => return Err(fault),
        }
    }
    let end = next_place(cursor);
    cursor.advance();
    match first_missing(row_of(edition, node), place) {
        Some(name) => Err(SlotFault::Missing(name, end)),
        None => Ok(()),
    }
}

/// The first slot fault of the tree, by the rows of the edition.
pub fn check_slots(edition: Edition, outline: &Outline<'_>) -> Result<(), SlotFault>
    ensures ok { OnOk result (IsClean edition (cut 0 outline.now)) }
    ensures err { IfErr result (IsFirst edition (cut 0 outline.now)) }
{
    let mut cursor = outline.cursor();
    let start = RowPosition {
        slot: 0,
        filled: false,
    };
    match check_argument(edition, &mut cursor, Node::Root, start) {
        Ok(_) => Ok(()),
        Err(fault) => Err(fault),
    }
}
