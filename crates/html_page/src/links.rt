//! Links to entries.

ghost use Rattle.std.specs.Prelude.{OnOk};
ghost use Rattle.html_page.specs.Pieces.{Appends};
ghost use Rattle.html_page.specs.Templates.{link_entered, link_awaited};

use crate::markup::{AFTER_LINK, AFTER_MISSING, BEFORE_LINK_KEY, COLON, LINK, MISSING};
use crate::pieces::PagePiece::{Attribute, Markup, Short, Text};
use crate::pieces::push_pieces;
use std::alloc::AllocError;

/// Appends a link to an entry, which shows its key.
pub fn push_link<'a>(
    page: &mut Vec<u8>,
    id: &'a [u8],
    authority: &'a [u8],
    code: &'a [u8],
) -> Result<(), AllocError>
    ensures { OnOk result (Appends page.old.items page.new.items (link_entered id.now authority.now code.now)) }
{
    push_pieces(
        page,
        &[
            Markup(LINK),
            Attribute(id),
            Markup(BEFORE_LINK_KEY),
            Short(authority),
            Markup(COLON),
            Short(code),
            Markup(AFTER_LINK),
        ],
    )
}

/// Appends what is read in the place of the id of an entry that the register does not have.
pub fn push_awaited_link(page: &mut Vec<u8>, read: &[u8]) -> Result<(), AllocError>
    ensures { OnOk result (Appends page.old.items page.new.items (link_awaited read.now)) }
{
    push_pieces(page, &[Markup(MISSING), Text(read), Markup(AFTER_MISSING)])
}
