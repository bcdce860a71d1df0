//! Areas of use.

ghost use Rattle.std.specs.Prelude.{◌↔◌, IsTrue};
ghost use Rattle.std.specs.List.{Any};
ghost use Rattle.crs_value.specs.Usages.{HasAreaPart, IsInArea};

use crate::search::part::has_part;
use crate::search::usages::usages_of;
use crs_part::{CrsParts, Usage};
use std::alloc::Global;

/// Whether the text of an area of use contains the part; letters A to Z match in either case.
pub fn is_in_area(alloc: Global, crs: &CrsParts, part: &[u8]) -> bool
    ensures { IsTrue result ↔ IsInArea part.now crs.now }
{
    some_has_area_part(alloc, usages_of(crs), part)
}

fn some_has_area_part(alloc: Global, usages: &[Usage], part: &[u8]) -> bool
    ensures { IsTrue result ↔ Any (HasAreaPart part.now) usages.now }
{
    let mut rest = usages;
    while let Some((usage, others)) = rest.split_first() {
        if has_area_part(alloc, usage, part) {
            return true;
        }
        rest = others;
    }
    false
}

fn has_area_part(alloc: Global, usage: &Usage, part: &[u8]) -> bool
    ensures { IsTrue result ↔ HasAreaPart part.now usage.now }
{
    match &usage.area {
        Some(area) => has_part(alloc, area.as_bytes(), part),
        None => false,
    }
}
