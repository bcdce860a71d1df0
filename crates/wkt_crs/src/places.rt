//! The place of a system's keyword.

ghost use Rattle.std.specs.Prelude.{◌≡◌, ◌≤◌, length};
ghost use Rattle.wkt_tree.specs.Cut.{cut};
ghost use Rattle.wkt_grammar.specs.Next.{is_open, next_is, place_next};
ghost use Rattle.wkt_crs.specs.Passing.{PassesItem, PassesItems, PassesFirst, TellsPlace, is_word};

use crs_value::Whose;
use wkt_grammar::next_is_comma;
use wkt_tree::{Cursor, Outline, TokenKind};

fn next_is_word(cursor: &Cursor<'_>) -> bool
    ensures { result ≡ next_is is_word cursor.now }
{
    match cursor.peek() {
        Some(token) => match token.kind {
            TokenKind::Word => true,
            _ => false,
        },
        None => false,
    }
}

fn next_is_open(cursor: &Cursor<'_>) -> bool
    ensures { result ≡ next_is is_open cursor.now }
{
    match cursor.peek() {
        Some(token) => match token.kind {
            TokenKind::Open(_) => true,
            _ => false,
        },
        None => false,
    }
}

fn next_place(cursor: &Cursor<'_>) -> usize
    ensures { result ≡ place_next cursor.now }
{
    match cursor.peek() {
        Some(token) => token.place,
        None => 0,
    }
}

/// Skips one item.
#[cycle(pass)]
fn pass_item(cursor: &mut Cursor<'_>)
    ensures shorter { length cursor.new ≤ length cursor.old }
    ensures passes { PassesItem cursor.old cursor.new }
{
    let named = next_is_word(cursor);
    cursor.advance();
    if named && next_is_open(cursor) {
        cursor.advance();
        pass_items(cursor);
    }
}

/// Skips the items of a node and its closing delimiter.
#[cycle(pass)]
fn pass_items(cursor: &mut Cursor<'_>)
    ensures shorter { length cursor.new ≤ length cursor.old }
    ensures passes { PassesItems cursor.old cursor.new }
{
    pass_item(cursor);
    while next_is_comma(cursor) {
        cursor.advance();
        pass_item(cursor);
    }
    cursor.advance();
}

/// Enters a node, and skips its first argument and the comma after it.
fn pass_first(cursor: &mut Cursor<'_>)
    ensures { PassesFirst cursor.old cursor.new }
{
    cursor.advance();
    cursor.advance();
    pass_item(cursor);
    cursor.advance();
}

/// The place of the keyword of the system that a condition is about.
pub(crate) fn keyword_place(outline: &Outline<'_>, whose: Whose) -> usize
    ensures { TellsPlace (cut 0 outline.now) whose result }
{
    let mut cursor = outline.cursor();
    match whose {
        Whose::Whole => next_place(&cursor),
        Whose::First => {
            pass_first(&mut cursor);
            next_place(&cursor)
        }
        Whose::Second => {
            pass_first(&mut cursor);
            pass_item(&mut cursor);
            cursor.advance();
            next_place(&cursor)
        }
    }
}
