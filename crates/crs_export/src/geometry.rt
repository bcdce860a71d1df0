//! Bounding boxes as geometries of GeoJSON.

ghost use Rattle.std.specs.Prelude.{◌≡◌, ◌++◌, ◌∷◌, [], ◌&&◌, IfOk, OnOk, if◌then◌else◌};
ghost use Rattle.crs_export.specs.declared.markup.TheConstants as markup;
ghost use Rattle.crs_export.specs.Boxes.{numeral, position, next_position, polygon, parts, geometry};

use crate::ends::{has_east, has_west, is_less};
use crate::markup::{EAST_END, POLYGON, POLYGONS, WEST_END};
use crs_number::Decimal;
use crs_part::BoundingBox;
use std::alloc::{AllocError, Global};

// The numerals of a box.
#[derive(Drop)]
struct GeometryEdges {
    west: Vec<u8>,
    south: Vec<u8>,
    east: Vec<u8>,
    north: Vec<u8>,
}

fn numeral(alloc: Global, decimal: &Decimal) -> Result<Vec<u8>, AllocError>
    ensures { IfOk result (λ text. text.items ≡ numeral decimal.now) }
{
    let mut text = Vec::new(alloc);
    decimal.write_to(&mut text)?;
    Ok(text)
}

fn edges_of(alloc: Global, found: &BoundingBox) -> Result<GeometryEdges, AllocError>
    ensures west { IfOk result (λ made. made.west.items ≡ numeral found.now.west) }
    ensures south { IfOk result (λ made. made.south.items ≡ numeral found.now.south) }
    ensures east { IfOk result (λ made. made.east.items ≡ numeral found.now.east) }
    ensures north { IfOk result (λ made. made.north.items ≡ numeral found.now.north) }
{
    let west = numeral(alloc, &found.west)?;
    let south = numeral(alloc, &found.south)?;
    let east = numeral(alloc, &found.east)?;
    let north = numeral(alloc, &found.north)?;
    Ok(GeometryEdges {
        west,
        south,
        east,
        north,
    })
}

fn push_position(text: &mut Vec<u8>, longitude: &[u8], latitude: &[u8]) -> Result<(), AllocError>
    ensures { OnOk result (text.new.items ≡ text.old.items ++ position longitude.now latitude.now) }
{
    text.push(b'[')?;
    text.extend_from_slice(longitude)?;
    text.push(b',')?;
    text.extend_from_slice(latitude)?;
    text.push(b']')?;
    Ok(())
}

fn push_next(text: &mut Vec<u8>, longitude: &[u8], latitude: &[u8]) -> Result<(), AllocError>
    ensures { OnOk result (text.new.items ≡ text.old.items ++ next_position longitude.now latitude.now) }
{
    text.push(b',')?;
    push_position(text, longitude, latitude)?;
    Ok(())
}

fn push_polygon(
    text: &mut Vec<u8>,
    west: &[u8],
    south: &[u8],
    east: &[u8],
    north: &[u8],
) -> Result<(), AllocError>
    ensures { OnOk result (text.new.items ≡ text.old.items ++ polygon west.now south.now east.now north.now) }
{
    text.extend_from_slice(b"[[")?;
    push_position(text, west, south)?;
    push_next(text, east, south)?;
    push_next(text, east, north)?;
    push_next(text, west, north)?;
    push_next(text, west, south)?;
    text.extend_from_slice(b"]]")?;
    Ok(())
}

// Appends the part from the west end of the box to 180, if it has a width.
fn push_west(text: &mut Vec<u8>, edges: &GeometryEdges, wide: bool) -> Result<(), AllocError>
    ensures { OnOk result (text.new.items ≡ text.old.items ++ (if wide then polygon edges.now.west.items edges.now.south.items markup.EAST_END.now edges.now.north.items else [])) }
{
    if !wide {
        return Ok(());
    }
    push_polygon(text, &edges.west, &edges.south, EAST_END, &edges.north)
}

// Appends the part from -180 to the east end of the box, if it has a width.
fn push_east(text: &mut Vec<u8>, edges: &GeometryEdges, wide: bool) -> Result<(), AllocError>
    ensures { OnOk result (text.new.items ≡ text.old.items ++ (if wide then polygon markup.WEST_END.now edges.now.south.items edges.now.east.items edges.now.north.items else [])) }
{
    if !wide {
        return Ok(());
    }
    push_polygon(text, WEST_END, &edges.south, &edges.east, &edges.north)
}

fn push_between(text: &mut Vec<u8>, west: bool, east: bool) -> Result<(), AllocError>
    ensures { OnOk result (text.new.items ≡ text.old.items ++ (if west && east then 44 ∷ [] else [])) }
{
    if west && east {
        text.push(b',')?;
    }
    Ok(())
}

fn push_cut(
    text: &mut Vec<u8>,
    edges: &GeometryEdges,
    west: bool,
    east: bool,
) -> Result<(), AllocError>
    ensures { OnOk result (text.new.items ≡ text.old.items ++ parts edges.now.west.items edges.now.south.items edges.now.east.items edges.now.north.items west east) }
{
    text.extend_from_slice(POLYGONS)?;
    push_west(text, edges, west)?;
    push_between(text, west, east)?;
    push_east(text, edges, east)?;
    text.push(b']')?;
    Ok(())
}

fn push_whole(text: &mut Vec<u8>, edges: &GeometryEdges) -> Result<(), AllocError>
    ensures { OnOk result (text.new.items ≡ text.old.items ++ (markup.POLYGON.now ++ polygon edges.now.west.items edges.now.south.items edges.now.east.items edges.now.north.items)) }
{
    text.extend_from_slice(POLYGON)?;
    push_polygon(text, &edges.west, &edges.south, &edges.east, &edges.north)
}

/// Appends the geometry of a bounding box. If west is greater than east, it is cut at 180 degrees.
pub fn push_geometry(
    alloc: Global,
    text: &mut Vec<u8>,
    found: &BoundingBox,
) -> Result<(), AllocError>
    ensures { OnOk result (text.new.items ≡ text.old.items ++ geometry found.now) }
{
    let edges = edges_of(alloc, found)?;
    if is_less(&found.east, &found.west) {
        push_cut(text, &edges, has_west(found), has_east(found))?;
        return Ok(());
    }
    push_whole(text, &edges)?;
    Ok(())
}
