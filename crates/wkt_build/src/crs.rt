//! Coordinate reference systems.

ghost use Rattle.std.specs.Prelude.{◌≡◌, ◌≤◌, length, IfOk};
ghost use Rattle.wkt_build.specs.Single.{BuildsSingle};
ghost use Rattle.wkt_grammar.specs.declared.table.Node.TheVariants as nodes;
ghost use Rattle.wkt_grammar.specs.declared.table.Takes.TheVariants as kinds;
ghost use Rattle.wkt_grammar.specs.Denotes.{DenotesBase, DenotesParts, DenotesSingle, base_fields, compound_fields, geodetic_fields, projected_fields, vertical_fields};
ghost use Rattle.wkt_build.specs.Reads.{BuildsNode};

use crate::built::{Built, pass, take_each, take_maybe, take_one, with};
use crate::choices::{geodetic_kind_of, is_compound, is_projected, is_vertical};
use crate::ending::{take_base_ending, take_ending, take_vertical_ending};
use crate::reader::Reader;
use crate::values::take_maybe_value;
use crs_part::{
    Axis, BaseCrs, Boxed, Compound, Conversion, CoordSystem, CrsParts, Geodetic, GeodeticFrame,
    GeodeticKind, Ident, NonEmpty, PrimeMeridian, Projected, Single, Text, Unit, Usage, Vertical,
    VerticalFrame,
};
use std::alloc::{AllocError, Global};
use wkt_grammar::{Keyword, Takes};

pub(crate) fn build_base(
    kind: GeodeticKind,
    alloc: Global,
    cursor: &mut Reader<'_>,
) -> Result<BaseCrs, AllocError>
    ensures builds { BuildsNode nodes.BaseCrs base_fields cursor.old cursor.new result }
    ensures shorter { length cursor.new ≤ length cursor.old }
    ensures kind { IfOk result (λ v. v.kind ≡ kind) }
{
    pass(cursor);
    let name = take_one::<Text, Text>(alloc, cursor)?;
    let datum = take_one::<GeodeticFrame, GeodeticFrame>(alloc, cursor)?;
    let ending = take_base_ending(alloc, cursor)?;
    pass(cursor);
    Ok(BaseCrs {
        kind,
        name,
        datum,
        prime_meridian: ending.prime_meridian,
        unit: ending.unit,
        ids: ending.ids,
    })
}

impl Built<BaseCrs> for BaseCrs {
    ghost slot_kind = { kinds.BaseCrs };

    ghost Denotes = { DenotesBase };

    fn kind() -> Takes {
        Takes::BaseCrs
    }

    fn build(alloc: Global, cursor: &mut Reader<'_>) -> Result<BaseCrs, AllocError> {
        let kind = geodetic_kind_of(cursor.next_keyword());
        build_base(kind, alloc, cursor)
    }
}

#[inline(never)]
pub(crate) fn build_geodetic(
    kind: GeodeticKind,
    alloc: Global,
    cursor: &mut Reader<'_>,
) -> Result<Geodetic, AllocError>
    ensures builds { BuildsNode nodes.GeodeticCrs geodetic_fields cursor.old cursor.new result }
    ensures shorter { length cursor.new ≤ length cursor.old }
    ensures kind { IfOk result (λ v. v.kind ≡ kind) }
{
    pass(cursor);
    let name = take_one::<Text, Text>(alloc, cursor)?;
    let datum = take_one::<GeodeticFrame, GeodeticFrame>(alloc, cursor)?;
    let (datum, prime_meridian) = with(
        datum,
        take_maybe::<PrimeMeridian, PrimeMeridian>(alloc, cursor),
    )?;
    let ((datum, prime_meridian), ending) = with(
        (datum, prime_meridian),
        take_ending(alloc, cursor),
    )?;
    pass(cursor);
    Ok(Geodetic {
        kind,
        name,
        datum,
        prime_meridian,
        system: ending.system,
        axes: ending.axes,
        unit: ending.unit,
        usages: ending.usages,
        ids: ending.ids,
        remark: ending.remark,
    })
}

#[inline(never)]
pub(crate) fn build_projected(
    alloc: Global,
    cursor: &mut Reader<'_>,
) -> Result<Projected, AllocError>
    ensures builds { BuildsNode nodes.ProjectedCrs projected_fields cursor.old cursor.new result }
    ensures shorter { length cursor.new ≤ length cursor.old }
{
    pass(cursor);
    let name = take_one::<Text, Text>(alloc, cursor)?;
    let base = take_one::<BaseCrs, BaseCrs>(alloc, cursor)?;
    let (base, conversion) = with(base, take_one::<Conversion, Conversion>(alloc, cursor))?;
    let ((base, conversion), ending) = with((base, conversion), take_ending(alloc, cursor))?;
    pass(cursor);
    Ok(Projected {
        name,
        base,
        conversion,
        system: ending.system,
        axes: ending.axes,
        unit: ending.unit,
        usages: ending.usages,
        ids: ending.ids,
        remark: ending.remark,
    })
}

#[inline(never)]
pub(crate) fn build_vertical(alloc: Global, cursor: &mut Reader<'_>) -> Result<Vertical, AllocError>
    ensures builds { BuildsNode nodes.VerticalCrs vertical_fields cursor.old cursor.new result }
    ensures shorter { length cursor.new ≤ length cursor.old }
{
    pass(cursor);
    let name = take_one::<Text, Text>(alloc, cursor)?;
    let datum = take_one::<VerticalFrame, VerticalFrame>(alloc, cursor)?;
    let ending = take_vertical_ending(alloc, cursor)?;
    pass(cursor);
    Ok(Vertical {
        name,
        datum,
        system: ending.system,
        axes: ending.axes,
        unit: ending.unit,
        geoid_models: ending.geoid_models,
        usages: ending.usages,
        ids: ending.ids,
        remark: ending.remark,
    })
}

/// A reference system of one part, by the next keyword.
fn build_single(alloc: Global, cursor: &mut Reader<'_>) -> Result<Single, AllocError>
    ensures builds { BuildsSingle cursor.old cursor.new result }
    ensures shorter { length cursor.new ≤ length cursor.old }
{
    let keyword = cursor.next_keyword();
    if is_projected(keyword) {
        let projected = build_projected(alloc, cursor)?;
        return Ok(Single::Projected(projected));
    }
    if is_vertical(keyword) {
        let vertical = build_vertical(alloc, cursor)?;
        return Ok(Single::Vertical(vertical));
    }
    let geodetic = build_geodetic(geodetic_kind_of(keyword), alloc, cursor)?;
    Ok(Single::Geodetic(geodetic))
}

impl Built<Single> for Single {
    ghost slot_kind = { kinds.SingleCrs };

    ghost Denotes = { DenotesSingle };

    fn kind() -> Takes {
        Takes::SingleCrs
    }

    fn build(alloc: Global, cursor: &mut Reader<'_>) -> Result<Single, AllocError> {
        build_single(alloc, cursor)
    }
}

// Separate, so that other systems do not reserve the size of two.
#[inline(never)]
pub(crate) fn build_compound(alloc: Global, cursor: &mut Reader<'_>) -> Result<Compound, AllocError>
    ensures builds { BuildsNode nodes.CompoundCrs compound_fields cursor.old cursor.new result }
    ensures shorter { length cursor.new ≤ length cursor.old }
{
    pass(cursor);
    let name = take_one::<Text, Text>(alloc, cursor)?;
    let first = take_one::<Single, Single>(alloc, cursor)?;
    let second = take_one::<Single, Single>(alloc, cursor)?;
    let usages = take_each::<Usage, Usage>(alloc, cursor)?;
    let ids = take_each::<Ident, Ident>(alloc, cursor)?;
    let remark = take_maybe_value(alloc, cursor, Keyword::Remark)?;
    pass(cursor);
    Ok(Compound {
        name,
        first,
        second,
        usages,
        ids,
        remark,
    })
}

impl Built<CrsParts> for CrsParts {
    ghost slot_kind = { kinds.AnyCrs };

    ghost Denotes = { DenotesParts };

    fn kind() -> Takes {
        Takes::AnyCrs
    }

    fn build(alloc: Global, cursor: &mut Reader<'_>) -> Result<CrsParts, AllocError> {
        if is_compound(cursor.next_keyword()) {
            let compound = build_compound(alloc, cursor)?;
            let boxed = Boxed::new(alloc, compound)?;
            return Ok(CrsParts::Compound(boxed));
        }
        let single = build_single(alloc, cursor)?;
        Ok(CrsParts::Single(single))
    }
}
