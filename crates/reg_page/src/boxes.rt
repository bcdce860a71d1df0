//! The bounding boxes of a reference system.

ghost use Rattle.std.specs.Prelude.{◌≡◌, ◌++◌, [], map, IfOk, OnOk};
ghost use Rattle.crs_value.specs.Usages.{usages_of};
ghost use Rattle.reg_page.specs.Boxes.{numeral, crosses, box_seen, box_of, box_in, boxes_in};

use crs_number::Decimal;
use crs_part::{BoundingBox, CrsParts};
use crs_value::search::usages_of;
use std::alloc::{AllocError, Global};

/// The edges of a box as numerals, and whether it crosses the meridian of 180 degrees.
#[derive(Drop)]
pub struct Edges {
    pub south: Vec<u8>,
    pub west: Vec<u8>,
    pub north: Vec<u8>,
    pub east: Vec<u8>,
    pub crosses: bool,
}

fn numeral(alloc: Global, decimal: &Decimal) -> Result<Vec<u8>, AllocError>
    ensures { IfOk result (λ text. text.items ≡ numeral decimal.now) }
{
    let mut text = Vec::new(alloc);
    decimal.write_to(&mut text)?;
    Ok(text)
}

// Whether west is greater than east.
fn crosses(found: &BoundingBox) -> bool
    ensures { result ≡ crosses found.now }
{
    found.east.cmp(&found.west).is_lt()
}

fn edges_of(alloc: Global, found: &BoundingBox) -> Result<Edges, AllocError>
    ensures { IfOk result (λ made. box_seen made ≡ box_of found.now) }
{
    let south = numeral(alloc, &found.south)?;
    let west = numeral(alloc, &found.west)?;
    let north = numeral(alloc, &found.north)?;
    let east = numeral(alloc, &found.east)?;
    let crosses = crosses(found);
    Ok(Edges {
        south,
        west,
        north,
        east,
        crosses,
    })
}

// Appends the edges of a box, if there is one.
fn push_box(
    alloc: Global,
    boxes: &mut Vec<Edges>,
    found: &Option<BoundingBox>,
) -> Result<(), AllocError>
    ensures { OnOk result (map box_seen boxes.new.items ≡ map box_seen boxes.old.items ++ box_in found.now) }
{
    let Some(found) = found else {
        return Ok(());
    };
    let edges = edges_of(alloc, found)?;
    boxes.push(edges)?;
    Ok(())
}

/// The bounding boxes of a reference system, in the order of its usages.
pub fn boxes_of(alloc: Global, parts: &CrsParts) -> Result<Vec<Edges>, AllocError>
    ensures { IfOk result (λ boxes. map box_seen boxes.items ≡ boxes_in (usages_of parts.now)) }
{
    let mut boxes = Vec::new(alloc);
    let mut rest = usages_of(parts);
    while let Some((usage, others)) = rest.split_first() {
        push_box(alloc, &mut boxes, &usage.bounding_box)?;
        rest = others;
    }
    Ok(boxes)
}
