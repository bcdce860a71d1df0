//! The rows of entries.

ghost use Rattle.std.specs.Prelude.{OnOk};
ghost use Rattle.html_page.specs.Pieces.{Appends};
ghost use Rattle.html_page.specs.Templates.{entry_start, entry_text, same_text, question, entry_id, operation_id, operation_note, area, kind_and_standing};

use crate::markup::{
    AFTER_AREA, AFTER_ENTRY_NOTE, AFTER_NAME, AFTER_NOTE, AFTER_QUESTION, AFTER_SAME_TEXT,
    AFTER_TEXT, AREA, BEFORE_ENTRY_ID, BEFORE_ENTRY_KEY, BEFORE_ENTRY_LINK, BEFORE_ENTRY_NOTE,
    BEFORE_KIND, BEFORE_NAME, BEFORE_NOTE, BEFORE_OPERATION, BEFORE_SAME_ID, BEFORE_STANDING,
    BEFORE_TEXT, COLON, ENTRY, QUESTION, RETIRED_CELL, SAME_TEXT, SUPERSEDED_CELL, VALID_CELL,
};
use crate::pieces::PagePiece::{Attribute, Lines, Markup, Text};
use crate::pieces::push_pieces;
use crate::standing::Standing;
use std::alloc::AllocError;

/// Appends the start of an entry's row: its key and its name.
pub fn push_entry_start<'a>(
    page: &mut Vec<u8>,
    id: &'a [u8],
    authority: &'a [u8],
    code: &'a [u8],
    name: &'a [u8],
) -> Result<(), AllocError>
    ensures { OnOk result (Appends page.old.items page.new.items (entry_start id.now authority.now code.now name.now)) }
{
    push_pieces(
        page,
        &[
            Markup(ENTRY),
            Attribute(id),
            Markup(BEFORE_ENTRY_LINK),
            Attribute(id),
            Markup(BEFORE_ENTRY_KEY),
            Text(authority),
            Markup(COLON),
            Text(code),
            Markup(BEFORE_NAME),
            Text(name),
            Markup(AFTER_NAME),
        ],
    )
}

/// Appends its indented text.
pub fn push_entry_text(page: &mut Vec<u8>, text: &[u8]) -> Result<(), AllocError>
    ensures { OnOk result (Appends page.old.items page.new.items (entry_text text.now)) }
{
    push_pieces(
        page,
        &[Markup(BEFORE_TEXT), Lines(text), Markup(AFTER_TEXT)],
    )
}

/// Appends a link to the row that has its text, and what is read in the place of the id of that row's entry.
pub fn push_same_text<'a>(
    page: &mut Vec<u8>,
    id: &'a [u8],
    read: &'a [u8],
) -> Result<(), AllocError>
    ensures { OnOk result (Appends page.old.items page.new.items (same_text id.now read.now)) }
{
    push_pieces(
        page,
        &[
            Markup(SAME_TEXT),
            Attribute(id),
            Markup(BEFORE_SAME_ID),
            Text(read),
            Markup(AFTER_SAME_TEXT),
        ],
    )
}

/// Appends what an expert would ask about it.
pub fn push_question(page: &mut Vec<u8>, text: &[u8]) -> Result<(), AllocError>
    ensures { OnOk result (Appends page.old.items page.new.items (question text.now)) }
{
    push_pieces(
        page,
        &[Markup(QUESTION), Lines(text), Markup(AFTER_QUESTION)],
    )
}

/// Appends what is read in the place of its id, and its note.
pub fn push_entry_id<'a>(
    page: &mut Vec<u8>,
    read: &'a [u8],
    note: &'a [u8],
) -> Result<(), AllocError>
    ensures { OnOk result (Appends page.old.items page.new.items (entry_id read.now note.now)) }
{
    push_pieces(
        page,
        &[
            Markup(BEFORE_ENTRY_ID),
            Text(read),
            Markup(BEFORE_ENTRY_NOTE),
            Text(note),
            Markup(AFTER_ENTRY_NOTE),
        ],
    )
}

/// Appends what is read in the place of the id of an operation on it.
pub fn push_operation_id(page: &mut Vec<u8>, read: &[u8]) -> Result<(), AllocError>
    ensures { OnOk result (Appends page.old.items page.new.items (operation_id read.now)) }
{
    push_pieces(page, &[Markup(BEFORE_OPERATION), Text(read)])
}

/// Appends the note of an operation on it.
pub fn push_operation_note(page: &mut Vec<u8>, note: &[u8]) -> Result<(), AllocError>
    ensures { OnOk result (Appends page.old.items page.new.items (operation_note note.now)) }
{
    push_pieces(page, &[Markup(BEFORE_NOTE), Text(note), Markup(AFTER_NOTE)])
}

/// Appends an area of use.
pub fn push_area(page: &mut Vec<u8>, text: &[u8]) -> Result<(), AllocError>
    ensures { OnOk result (Appends page.old.items page.new.items (area text.now)) }
{
    push_pieces(page, &[Markup(AREA), Text(text), Markup(AFTER_AREA)])
}

/// Appends its kind and its status.
pub fn push_standing(page: &mut Vec<u8>, kind: &[u8], status: Standing) -> Result<(), AllocError>
    ensures { OnOk result (Appends page.old.items page.new.items (kind_and_standing kind.now status)) }
{
    let cell = match status {
        Standing::Valid => VALID_CELL,
        Standing::Superseded => SUPERSEDED_CELL,
        Standing::Retired => RETIRED_CELL,
    };
    push_pieces(
        page,
        &[
            Markup(BEFORE_KIND),
            Text(kind),
            Markup(BEFORE_STANDING),
            Markup(cell),
        ],
    )
}
