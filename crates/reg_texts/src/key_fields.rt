//! The line of a text in the sheet of keys.

ghost use Rattle.std.specs.Prelude.{◌≡◌, ◌++◌, ℕ, List, [], None, Some, drop, map, if◌then◌else◌, IfOk, OnOk};
ghost use Rattle.std.specs.List.{flat_map};
ghost use Rattle.csv.specs.Writing.{row_text, default_writer};
ghost use Rattle.reg_report.specs.Lines.{IsReady, WritesRow};
ghost use Rattle.reg_texts.specs.Said.{said};
ghost use Rattle.reg_texts.specs.Listing.{successor_text};
ghost use Rattle.reg_texts.specs.KeyFields.{geodetic_word, kind_word, area_text, area_in, box_in, numeral, sides_of, side_texts, status_word, sheet_header, key_fields};
ghost use Rattle.reg_texts.specs.KeySheet.{IsKeyLine};

use crate::listing::push_successors;
use crate::saying::Saying;
use crs_number::Decimal;
use crs_part::{BoundingBox, CrsParts, GeodeticKind, Single, Text, Usage};
use crs_value::search::usages_of;
use csv::Writer;
use reg_report::write_fields;
use std::alloc::{AllocError, Global};
use wkt_crs::read_crs;

fn geodetic_word(kind: GeodeticKind) -> &'static [u8]
    ensures { result.now ≡ geodetic_word kind }
{
    match kind {
        GeodeticKind::Geodetic => b"geodetic",
        GeodeticKind::Geographic => b"geographic",
    }
}

fn kind_word(crs: &CrsParts) -> &[u8]
    ensures { result.now ≡ kind_word crs.now }
{
    match crs {
        CrsParts::Single(Single::Geodetic(crs)) => geodetic_word(crs.kind),
        CrsParts::Single(Single::Projected(_)) => b"projected",
        CrsParts::Single(Single::Vertical(_)) => b"vertical",
        CrsParts::Compound(_) => b"compound",
    }
}

fn area_text(area: &Option<Text>) -> &[u8]
    ensures { result.now ≡ area_text area.now }
{
    match area {
        Some(area) => area.as_bytes(),
        None => b"",
    }
}

fn area_in(usages: &[Usage]) -> &[u8]
    ensures { result.now ≡ area_in usages.now }
{
    let Some((first, _)) = usages.split_first() else {
        return b"";
    };
    area_text(&first.area)
}

/// The numerals of a bounding box; empty texts without one.
#[derive(Drop)]
pub struct BoxNumerals {
    pub south: Vec<u8>,
    pub west: Vec<u8>,
    pub north: Vec<u8>,
    pub east: Vec<u8>,
}

fn numeral(alloc: Global, decimal: &Decimal) -> Result<Vec<u8>, AllocError>
    ensures { IfOk result (λ text. text.items ≡ numeral decimal.now) }
{
    let mut text = Vec::new(alloc);
    decimal.write_to(&mut text)?;
    Ok(text)
}

fn no_sides(alloc: Global) -> BoxNumerals
    ensures { side_texts result ≡ sides_of None }
{
    BoxNumerals {
        south: Vec::new(alloc),
        west: Vec::new(alloc),
        north: Vec::new(alloc),
        east: Vec::new(alloc),
    }
}

fn sides_of_box(alloc: Global, found: &BoundingBox) -> Result<BoxNumerals, AllocError>
    ensures { IfOk result (λ sides. side_texts sides ≡ sides_of (Some found.now)) }
{
    let south = numeral(alloc, &found.south)?;
    let west = numeral(alloc, &found.west)?;
    let north = numeral(alloc, &found.north)?;
    let east = numeral(alloc, &found.east)?;
    Ok(BoxNumerals {
        south,
        west,
        north,
        east,
    })
}

fn sides_of(alloc: Global, found: &Option<BoundingBox>) -> Result<BoxNumerals, AllocError>
    ensures { IfOk result (λ sides. side_texts sides ≡ sides_of found.now) }
{
    match found {
        Some(found) => sides_of_box(alloc, found),
        None => Ok(no_sides(alloc)),
    }
}

fn sides_in(alloc: Global, usages: &[Usage]) -> Result<BoxNumerals, AllocError>
    ensures { IfOk result (λ sides. side_texts sides ≡ sides_of (box_in usages.now)) }
{
    let Some((first, _)) = usages.split_first() else {
        return Ok(no_sides(alloc));
    };
    sides_of(alloc, &first.bounding_box)
}

fn status_word<'a>(saying: &'a Saying<'_>) -> &'a [u8]
    ensures { result.now ≡ status_word (said saying.now) }
{
    if saying.valid {
        b"valid"
    } else {
        b"superseded"
    }
}

fn authority_of<'a>(saying: &'a Saying<'_>) -> &'a [u8]
    ensures { result.now ≡ (said saying.now).key.authority }
{
    saying.key.authority
}

fn code_of<'a>(saying: &'a Saying<'_>) -> &'a [u8]
    ensures { result.now ≡ (said saying.now).key.code }
{
    saying.key.code
}

fn without_first(text: &[u8]) -> &[u8]
    ensures { result.now ≡ drop 1 text.now }
{
    let Some((_, others)) = text.split_first() else {
        return b"";
    };
    others
}

// The keys of successors, each after a space.
fn successors(alloc: Global, others: &[Saying]) -> Result<Vec<u8>, AllocError>
    ensures { IfOk result (λ text. text.items ≡ flat_map successor_text (map said others.now)) }
{
    let mut text = Vec::new(alloc);
    push_successors(alloc, &mut text, others)?;
    Ok(text)
}

fn replaced_by<'a>(first: &Saying, keys: &'a [u8]) -> &'a [u8]
    ensures { (others : List ℕ) → keys.now ≡ others → result.now ≡ (if (said first.now).valid then [] else drop 1 others) }
{
    if first.valid {
        return b"";
    }
    without_first(keys)
}

fn write_line(
    alloc: Global,
    wtr: &mut Writer<Vec<u8>>,
    first: &Saying,
    others: &[Saying],
    crs: &CrsParts,
) -> Result<(), AllocError>
    requires { IsReady wtr.old }
    ensures { OnOk result (WritesRow wtr.old wtr.new (key_fields (said first.now) (map said others.now) crs.now)) }
{
    let usages = usages_of(crs);
    let sides = sides_in(alloc, usages)?;
    let keys = successors(alloc, others)?;
    write_fields(
        wtr,
        &[
            authority_of(first),
            code_of(first),
            crs.name().as_bytes(),
            kind_word(crs),
            area_in(usages),
            &sides.south,
            &sides.west,
            &sides.north,
            &sides.east,
            status_word(first),
            replaced_by(first, &keys),
        ],
    )?;
    Ok(())
}

fn line_text(
    alloc: Global,
    first: &Saying,
    others: &[Saying],
    crs: &CrsParts,
) -> Result<Vec<u8>, AllocError>
    ensures { IfOk result (λ text. text.items ≡ row_text default_writer (key_fields (said first.now) (map said others.now) crs.now)) }
{
    let mut wtr = Writer::from_writer(Vec::new(alloc));
    write_line(alloc, &mut wtr, first, others, crs)?;
    match wtr.into_inner() {
        Ok(text) => Ok(text),
        Err(_) => Err(AllocError),
    }
}

/// Appends the line of a text. The text of a definition spells a value, so this fails only if memory runs out.
pub fn push_line(
    alloc: Global,
    text: &mut Vec<u8>,
    first: &Saying,
    others: &[Saying],
) -> Result<(), AllocError>
    ensures { OnOk result ((line : List ℕ) × IsKeyLine (said first.now) (map said others.now) line × (text.new.items ≡ text.old.items ++ line)) }
{
    let Ok(crs) = read_crs(alloc, first.text) else {
        return Err(AllocError);
    };
    let line = line_text(alloc, first, others, crs.parts())?;
    text.extend_from_slice(&line)?;
    Ok(())
}

fn write_header(wtr: &mut Writer<Vec<u8>>) -> Result<(), AllocError>
    requires { IsReady wtr.old }
    ensures { OnOk result (WritesRow wtr.old wtr.new sheet_header) }
{
    write_fields(
        wtr,
        &[
            b"authority",
            b"code",
            b"name",
            b"kind",
            b"area",
            b"south",
            b"west",
            b"north",
            b"east",
            b"status",
            b"replaced_by",
        ],
    )
}

/// The line with the names of the fields.
pub fn header_text(alloc: Global) -> Result<Vec<u8>, AllocError>
    ensures { IfOk result (λ text. text.items ≡ row_text default_writer sheet_header) }
{
    let mut wtr = Writer::from_writer(Vec::new(alloc));
    write_header(&mut wtr)?;
    match wtr.into_inner() {
        Ok(text) => Ok(text),
        Err(_) => Err(AllocError),
    }
}
