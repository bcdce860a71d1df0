//! The pieces of a page.

ghost use Rattle.std.specs.Prelude.{◌≡◌, ◌++◌, map, OnOk};
ghost use Rattle.html_page.specs.Pieces.{seen, bytes_of, html, Appends};

use crate::marks::{Feeds, push_marked};
use crate::short::push_short;
use std::alloc::AllocError;

/// A part of a page.
#[derive(Drop)]
pub enum PagePiece<'a> {
    /// A constant of the program.
    Markup(&'static [u8]),
    /// A text between tags, on one line.
    Text(&'a [u8]),
    /// A text between tags, with its line feeds.
    Lines(&'a [u8]),
    /// A text between tags, of which at most 200 characters are shown.
    Short(&'a [u8]),
    /// A text in an id, or in a link within the page.
    Attribute(&'a [u8]),
    /// A numeral in a drawing.
    Numeral(&'a [u8]),
}

#[tactic(auto, unfolding(crate::specs::Pieces::bytes_of))]
fn push_piece(page: &mut Vec<u8>, piece: &PagePiece<'_>) -> Result<(), AllocError>
    ensures { OnOk result (page.new.items ≡ page.old.items ++ bytes_of (seen piece.now)) }
{
    match piece {
        PagePiece::Markup(constant) => page.extend_from_slice(constant),
        PagePiece::Text(text) => push_marked(page, Feeds::Marked, text),
        PagePiece::Lines(text) => push_marked(page, Feeds::Kept, text),
        PagePiece::Short(text) => push_short(page, text),
        PagePiece::Attribute(text) => push_marked(page, Feeds::Marked, text),
        PagePiece::Numeral(text) => push_marked(page, Feeds::Marked, text),
    }
}

#[tactic(auto, unfolding(crate::specs::Pieces::html))]
fn push_each(page: &mut Vec<u8>, pieces: &[PagePiece<'_>]) -> Result<(), AllocError>
    ensures { OnOk result (page.new.items ≡ page.old.items ++ html (map seen pieces.now)) }
{
    for piece in pieces {
        push_piece(page, piece)?;
    }
    Ok(())
}

/// Appends the pieces.
pub fn push_pieces(page: &mut Vec<u8>, pieces: &[PagePiece<'_>]) -> Result<(), AllocError>
    ensures { OnOk result (Appends page.old.items page.new.items (map seen pieces.now)) }
{
    push_each(page, pieces)?;
    Ok(())
}
