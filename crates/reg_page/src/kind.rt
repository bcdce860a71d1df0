//! Words for kinds, and areas of use.

ghost use Rattle.std.specs.Prelude.{◌≡◌, ◌++◌, ℕ, map, IfOk, OnOk};
ghost use Rattle.std.specs.Global.{Vec};
ghost use Rattle.crs_value.specs.Kinds.{kind_of};
ghost use Rattle.crs_value.specs.Usages.{usages_of};
ghost use Rattle.reg_page.specs.Kinds.{kind_word, area_bytes, areas_in};

use crs_part::{CrsParts, Text};
use crs_value::search::{Kind, is_of_kind, usages_of};
use std::alloc::{AllocError, Global};

/// The kind of a reference system.
pub fn kind_of(parts: &CrsParts) -> Kind
    ensures { result ≡ kind_of parts.now }
{
    if is_of_kind(parts, Kind::Geographic) {
        return Kind::Geographic;
    }
    if is_of_kind(parts, Kind::Geodetic) {
        return Kind::Geodetic;
    }
    if is_of_kind(parts, Kind::Projected) {
        return Kind::Projected;
    }
    if is_of_kind(parts, Kind::Vertical) {
        return Kind::Vertical;
    }
    Kind::Compound
}

/// The word for a kind.
pub fn kind_word(kind: Kind) -> &'static [u8]
    ensures { result.now ≡ kind_word kind }
{
    match kind {
        Kind::Geographic => b"geographic",
        Kind::Geodetic => b"geodetic",
        Kind::Projected => b"projected",
        Kind::Vertical => b"vertical",
        Kind::Compound => b"compound",
    }
}

fn push_area(areas: &mut Vec<Vec<u8>>, alloc: Global, area: &Option<Text>) -> Result<(), AllocError>
    ensures { OnOk result (map (λ (a : Vec ℕ). a.items) areas.new.items ≡ map (λ (a : Vec ℕ). a.items) areas.old.items ++ area_bytes area.now) }
{
    let Some(text) = area else {
        return Ok(());
    };
    let copy = Vec::from_slice(alloc, text.as_bytes())?;
    areas.push(copy)?;
    Ok(())
}

/// The areas of use of a reference system.
pub fn areas_of(alloc: Global, parts: &CrsParts) -> Result<Vec<Vec<u8>>, AllocError>
    ensures { IfOk result (λ areas. map (λ (a : Vec ℕ). a.items) areas.items ≡ areas_in (usages_of parts.now)) }
{
    let mut areas = Vec::new(alloc);
    let mut rest = usages_of(parts);
    while let Some((usage, others)) = rest.split_first() {
        push_area(&mut areas, alloc, &usage.area)?;
        rest = others;
    }
    Ok(areas)
}
