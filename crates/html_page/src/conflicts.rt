//! The conflicts: the texts of each key, side by side.

ghost use Rattle.std.specs.Prelude.{OnOk};
ghost use Rattle.html_page.specs.Pieces.{Appends};
ghost use Rattle.html_page.specs.Templates.{conflict_start, conflict_link, side_start, word};

use crate::markup::{
    AFTER_CONFLICT_KEY, AFTER_CONFLICT_LINK, AFTER_FOLD, AFTER_WORD, BEFORE_CONFLICT_KEY,
    BEFORE_CONFLICT_LINK, BEFORE_SIDE_ID, BEFORE_SIDE_NOTE, BEFORE_SIDE_WORDS, COLON, CONFLICT,
    FOLD, SIDE, WORD,
};
use crate::pieces::PagePiece::{Attribute, Lines, Markup, Text};
use crate::pieces::push_pieces;
use crate::run::RunKind;
use std::alloc::AllocError;

/// Appends the heading of a key in conflict, to which its link leads.
pub fn push_conflict_start<'a>(
    page: &mut Vec<u8>,
    authority: &'a [u8],
    code: &'a [u8],
) -> Result<(), AllocError>
    ensures { OnOk result (Appends page.old.items page.new.items (conflict_start authority.now code.now)) }
{
    push_pieces(
        page,
        &[
            Markup(CONFLICT),
            Attribute(authority),
            Markup(COLON),
            Attribute(code),
            Markup(BEFORE_CONFLICT_KEY),
            Text(authority),
            Markup(COLON),
            Text(code),
            Markup(AFTER_CONFLICT_KEY),
        ],
    )
}

/// Appends a link to the heading of a key, if it is in conflict.
pub fn push_conflict_link<'a>(
    page: &mut Vec<u8>,
    authority: &'a [u8],
    code: &'a [u8],
    in_conflict: bool,
) -> Result<(), AllocError>
    ensures { OnOk result (Appends page.old.items page.new.items (conflict_link authority.now code.now in_conflict)) }
{
    if !in_conflict {
        return push_pieces(page, &[]);
    }
    push_pieces(
        page,
        &[
            Markup(BEFORE_CONFLICT_LINK),
            Attribute(authority),
            Markup(COLON),
            Attribute(code),
            Markup(AFTER_CONFLICT_LINK),
        ],
    )
}

/// Appends the start of one side, up to its words: the id as a link, and what is read in its place.
pub fn push_side_start<'a>(
    page: &mut Vec<u8>,
    id: &'a [u8],
    read: &'a [u8],
    note: &'a [u8],
) -> Result<(), AllocError>
    ensures { OnOk result (Appends page.old.items page.new.items (side_start id.now read.now note.now)) }
{
    push_pieces(
        page,
        &[
            Markup(SIDE),
            Attribute(id),
            Markup(BEFORE_SIDE_ID),
            Text(read),
            Markup(BEFORE_SIDE_NOTE),
            Text(note),
            Markup(BEFORE_SIDE_WORDS),
        ],
    )
}

/// Appends a run of words: as it is, marked, or folded.
pub fn push_word(page: &mut Vec<u8>, kind: RunKind, text: &[u8]) -> Result<(), AllocError>
    ensures { OnOk result (Appends page.old.items page.new.items (word (record { kind = kind; text = text.now }))) }
{
    match kind {
        RunKind::Plain => push_pieces(page, &[Lines(text)]),
        RunKind::Differs => push_pieces(page, &[Markup(WORD), Lines(text), Markup(AFTER_WORD)]),
        RunKind::Folded => push_pieces(page, &[Markup(FOLD), Lines(text), Markup(AFTER_FOLD)]),
    }
}
