//! Maps: bounding boxes over a grid of meridians and parallels.

ghost use Rattle.std.specs.Prelude.{OnOk};
ghost use Rattle.html_page.specs.Pieces.{Appends};
ghost use Rattle.html_page.specs.Templates.{one_part, two_parts, drawing, caption, map_of};

use crate::head::push_mark;
use crate::markup::{
    ACROSS, AFTER_BOX, AFTER_MAP, AFTER_WEST_END, BEFORE_EAST, BEFORE_NORTH, BEFORE_SOUTH,
    BEFORE_WEST, BOX, COMMA, FROM_WEST_END, MAP, TO_EAST_END, UP,
};
use crate::pieces::PagePiece::{Markup, Numeral, Text};
use crate::pieces::push_pieces;
use std::alloc::AllocError;

fn push_one_part<'a>(
    page: &mut Vec<u8>,
    south: &'a [u8],
    west: &'a [u8],
    north: &'a [u8],
    east: &'a [u8],
) -> Result<(), AllocError>
    ensures { OnOk result (Appends page.old.items page.new.items (one_part south.now west.now north.now east.now)) }
{
    push_pieces(
        page,
        &[
            Markup(BOX),
            Numeral(west),
            Markup(COMMA),
            Numeral(south),
            Markup(ACROSS),
            Numeral(east),
            Markup(UP),
            Numeral(north),
            Markup(ACROSS),
            Numeral(west),
            Markup(AFTER_BOX),
        ],
    )
}

fn push_two_parts<'a>(
    page: &mut Vec<u8>,
    south: &'a [u8],
    west: &'a [u8],
    north: &'a [u8],
    east: &'a [u8],
) -> Result<(), AllocError>
    ensures { OnOk result (Appends page.old.items page.new.items (two_parts south.now west.now north.now east.now)) }
{
    push_pieces(
        page,
        &[
            Markup(BOX),
            Numeral(west),
            Markup(COMMA),
            Numeral(south),
            Markup(TO_EAST_END),
            Numeral(north),
            Markup(ACROSS),
            Numeral(west),
            Markup(FROM_WEST_END),
            Numeral(south),
            Markup(ACROSS),
            Numeral(east),
            Markup(UP),
            Numeral(north),
            Markup(AFTER_WEST_END),
        ],
    )
}

fn push_drawing<'a>(
    page: &mut Vec<u8>,
    south: &'a [u8],
    west: &'a [u8],
    north: &'a [u8],
    east: &'a [u8],
    crosses: bool,
) -> Result<(), AllocError>
    ensures { OnOk result (Appends page.old.items page.new.items (drawing south.now west.now north.now east.now crosses)) }
{
    if crosses {
        return push_two_parts(page, south, west, north, east);
    }
    push_one_part(page, south, west, north, east)
}

fn push_caption<'a>(
    page: &mut Vec<u8>,
    south: &'a [u8],
    west: &'a [u8],
    north: &'a [u8],
    east: &'a [u8],
) -> Result<(), AllocError>
    ensures { OnOk result (Appends page.old.items page.new.items (caption south.now west.now north.now east.now)) }
{
    push_pieces(
        page,
        &[
            Markup(BEFORE_SOUTH),
            Text(south),
            Markup(BEFORE_NORTH),
            Text(north),
            Markup(BEFORE_WEST),
            Text(west),
            Markup(BEFORE_EAST),
            Text(east),
            Markup(AFTER_MAP),
        ],
    )
}

/// Appends the map of a bounding box: its numerals, and whether it crosses the meridian of 180 degrees.
pub fn push_map<'a>(
    page: &mut Vec<u8>,
    south: &'a [u8],
    west: &'a [u8],
    north: &'a [u8],
    east: &'a [u8],
    crosses: bool,
) -> Result<(), AllocError>
    ensures { OnOk result (Appends page.old.items page.new.items (map_of (record { south = south.now; west = west.now; north = north.now; east = east.now; crosses = crosses }))) }
{
    push_mark(page, MAP)?;
    push_drawing(page, south, west, north, east, crosses)?;
    push_caption(page, south, west, north, east)?;
    Ok(())
}
