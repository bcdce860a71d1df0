//! The awaited entries and the gaps of a register.

ghost use Rattle.std.specs.Prelude.{OnOk};
ghost use Rattle.html_page.specs.Pieces.{Appends};
ghost use Rattle.html_page.specs.Templates.{awaited_item, gap_start, gap_counts};

use crate::head::push_number;
use crate::markup::{
    AFTER_AWAITED_ITEM, AFTER_GAP, AFTER_LOW, AWAITED_ITEM, BEFORE_HIGH, BEFORE_LOW, GAP,
};
use crate::pieces::PagePiece::{Markup, Text};
use crate::pieces::push_pieces;
use std::alloc::{AllocError, Global};

/// Appends what is read in the place of an awaited id.
pub fn push_awaited(page: &mut Vec<u8>, read: &[u8]) -> Result<(), AllocError>
    ensures { OnOk result (Appends page.old.items page.new.items (awaited_item read.now)) }
{
    push_pieces(
        page,
        &[Markup(AWAITED_ITEM), Text(read), Markup(AFTER_AWAITED_ITEM)],
    )
}

/// Appends what is read in the place of the UUID of an office with missing operations.
pub fn push_gap_start(page: &mut Vec<u8>, read: &[u8]) -> Result<(), AllocError>
    ensures { OnOk result (Appends page.old.items page.new.items (gap_start read.now)) }
{
    push_pieces(page, &[Markup(GAP), Text(read)])
}

/// Appends a range of missing counts.
pub fn push_gap_counts(
    alloc: Global,
    page: &mut Vec<u8>,
    low: u32,
    high: u32,
) -> Result<(), AllocError>
    ensures { OnOk result (Appends page.old.items page.new.items (gap_counts low high)) }
{
    push_number(alloc, page, BEFORE_LOW, low as usize, AFTER_LOW)?;
    push_number(alloc, page, BEFORE_HIGH, high as usize, AFTER_GAP)?;
    Ok(())
}
