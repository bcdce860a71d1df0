//! The beginning and the end of the page.

ghost use Rattle.std.specs.Prelude.{◌∷◌, [], OnOk};
ghost use Rattle.html_page.specs.Pieces.{Markup as Constant, Appends};
ghost use Rattle.html_page.specs.Templates.{number, head, figures, end};

use crate::markup::{
    AWAITED, BEFORE_FIGURES, BEFORE_HEADING, BEFORE_STYLE, BEFORE_TITLE, COUNT, ENTRIES, GAPS,
    IN_CONFLICT, MAIN_END, OPERATIONS, PAGE_END, RETIRED, SUPERSEDED, VALID,
};
use crate::pieces::PagePiece::{Markup, Text};
use crate::pieces::push_pieces;
use crate::script::SCRIPT;
use crate::style::STYLE;
use std::alloc::{AllocError, Global};

/// The counts of a register.
#[derive(Clone, Copy, Debug, PartialEq, Eq)]
pub struct PageFigures {
    pub entries: usize,
    pub valid: usize,
    pub superseded: usize,
    pub retired: usize,
    /// Keys in conflict.
    pub conflicts: usize,
    pub awaited: usize,
    pub gaps: usize,
    pub operations: usize,
}

/// Appends a constant alone.
pub fn push_mark(page: &mut Vec<u8>, constant: &'static [u8]) -> Result<(), AllocError>
    ensures { OnOk result (Appends page.old.items page.new.items (Constant constant.now ∷ [])) }
{
    push_pieces(page, &[Markup(constant)])
}

/// Appends everything up to the figures.
pub fn push_head(page: &mut Vec<u8>, title: &[u8]) -> Result<(), AllocError>
    ensures { OnOk result (Appends page.old.items page.new.items (head title.now)) }
{
    push_pieces(
        page,
        &[
            Markup(BEFORE_TITLE),
            Text(title),
            Markup(BEFORE_STYLE),
            Markup(STYLE),
            Markup(BEFORE_HEADING),
            Text(title),
            Markup(BEFORE_FIGURES),
        ],
    )
}

/// Appends a number between two constants.
pub fn push_number(
    alloc: Global,
    page: &mut Vec<u8>,
    before: &'static [u8],
    n: usize,
    after: &'static [u8],
) -> Result<(), AllocError>
    ensures { OnOk result (Appends page.old.items page.new.items (number before.now n after.now)) }
{
    let digits = n.to_string(alloc)?;
    push_pieces(
        page,
        &[Markup(before), Text(digits.as_bytes()), Markup(after)],
    )
}

/// Appends the figures.
pub fn push_figures(alloc: Global, page: &mut Vec<u8>, f: &PageFigures) -> Result<(), AllocError>
    ensures { OnOk result (Appends page.old.items page.new.items (figures f.now)) }
{
    push_number(alloc, page, COUNT, f.entries, ENTRIES)?;
    push_number(alloc, page, COUNT, f.valid, VALID)?;
    push_number(alloc, page, COUNT, f.superseded, SUPERSEDED)?;
    push_number(alloc, page, COUNT, f.retired, RETIRED)?;
    push_number(alloc, page, COUNT, f.conflicts, IN_CONFLICT)?;
    push_number(alloc, page, COUNT, f.awaited, AWAITED)?;
    push_number(alloc, page, COUNT, f.gaps, GAPS)?;
    push_number(alloc, page, COUNT, f.operations, OPERATIONS)?;
    Ok(())
}

/// Appends everything after the content.
pub fn push_end(page: &mut Vec<u8>) -> Result<(), AllocError>
    ensures { OnOk result (Appends page.old.items page.new.items end) }
{
    push_pieces(page, &[Markup(MAIN_END), Markup(SCRIPT), Markup(PAGE_END)])
}
